// A worker's record: is it busy, are its numbers in range, and is it at an update.
// What a phase has not read it does not hold, so few damaged records can be written down at all.
#![tactic(auto)]

ghost use Rattle.std.specs.Prelude.{◌≡◌, ◌&&◌, ◌≤◌, leb};
ghost use Rattle.trie.specs.Size.{most_cells};
ghost use Rattle.records.specs.Phases.{updating};
ghost use Rattle.trie.specs.Record.{loudness_of, idle, busy, cell_of, update_fits, query_fits, operation_fits, above, climb_fits};

use decibel::LOUDEST;
use trie::{Bounds, Climb, MOST_CELLS, Operation, Phase, Query, Update, Worker};

pub fn rested() -> Worker
    ensures { result ≡ idle }
{
    Worker::default()
}

pub fn is_busy(w: Worker) -> bool
    ensures { result ≡ busy w }
{
    !matches!(w.phase, Phase::Idle)
}

pub fn cell(u: Update) -> u64
    ensures { result ≡ cell_of u }
{
    match u {
        Update::Insert(k, _) | Update::Delete(k) => k,
    }
}

fn loudness(u: Update) -> u64
    ensures { result ≡ loudness_of u }
{
    match u {
        Update::Insert(_, level) => level.0,
        Update::Delete(_) => 0,
    }
}

// No branch hangs on whether a cell is inserted or deleted: nothing foretells that.
#[tactic(auto, using(crate::proofs::Levels::fits_loudness))]
pub fn update_fits(n: u64, u: Update) -> bool
    ensures { result ≡ update_fits n u }
{
    (cell(u) < n) & (loudness(u) <= LOUDEST)
}

pub fn query_fits(n: u64, q: Query) -> bool
    ensures { result ≡ query_fits n q }
{
    match q {
        Query::Find(k) | Query::Rank(k) => k < n,
        Query::Select(j) => 1 <= j,
        Query::Total => true,
    }
}

pub fn operation_fits(n: u64, o: Operation) -> bool
    ensures { result ≡ operation_fits n o }
{
    match o {
        Operation::Update(u) => update_fits(n, u),
        Operation::Query(q) => query_fits(n, q),
    }
}

// Whether x is one of the nodes above y, up to that many levels.
// Only the one that has as many binary digits as x can be x. Where x has as many as y or more, `up` wraps, and what it leaves of y is too short.
fn is_above(levels: u64, y: u64, x: u64) -> bool
    requires { 1 ≤ y }
    ensures { result ≡ above levels y x }
{
    let up = (63 + x.leading_zeros() - y.leading_zeros()) % 64;
    (u64::from(up) < levels) & (y / 2 >> up == x)
}

// No climb fits where there are more cells than in any tree.
#[tactic(auto, using(crate::proofs::Tests::fits_cell), unfolding(trie::specs::Record::climb_fits))]
pub fn climb_fits(b: Bounds, c: Climb) -> bool
    ensures { result ≡ (leb b.cells most_cells && climb_fits b c) }
{
    b.cells <= MOST_CELLS
        && update_fits(b.cells, c.update)
        && (is_above(b.height, b.cells + cell(c.update), c.node.0) & (c.made <= b.share))
}

// Whether the worker has an update under way.
pub fn is_updating(w: Worker) -> bool
    ensures { result ≡ updating w.phase }
{
    matches!(
        w.phase,
        Phase::Read(_) | Phase::Swap(_, _) | Phase::Refresh(_, _)
    )
}
