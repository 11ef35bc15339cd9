// The refusals of a call that N, W, the worker's number and the lengths of what is lent decide: 1, 2, 3 and 4.
// Where the board has such a worker none is told, and 1 and 3 are left to the call on its record.
#![tactic(auto)]

ghost use Rattle.std.specs.Prelude.{◌≡◌};
ghost use Rattle.judging.specs.Judging.{manned_by, absent_of, judge_of};

use trie::{MOST_WORKERS, Refusal};

#[tactic(auto, unfolding(crate::specs::Judging::manned_by))]
pub fn is_manned(w: u64, seats: usize) -> bool
    ensures { result ≡ manned_by w seats }
{
    ((1 <= w) & (w <= MOST_WORKERS as u64)) & (w <= seats as u64)
}

// The first refusal where the board has no such worker.
#[tactic(auto, unfolding(crate::specs::Judging::absent_of))]
fn judge_absent(n: u64, manned: bool, nodes: usize, versions: usize) -> Refusal
    ensures { result ≡ absent_of n manned nodes versions }
{
    if !tables::is_allowed(n) {
        return Refusal::Cells;
    }
    if !manned {
        return Refusal::Workers;
    }
    if tables::is_roomy_by(n, nodes, versions) {
        Refusal::Worker
    } else {
        Refusal::Tables
    }
}

#[tactic(auto, unfolding(crate::specs::Judging::judge_of))]
pub fn judge(
    n: u64,
    w: u64,
    i: u64,
    nodes: usize,
    versions: usize,
    seats: usize,
) -> Result<(), Refusal>
    ensures { result ≡ judge_of n w i nodes versions seats }
{
    let manned = is_manned(w, seats);
    if manned & (i < w) {
        return Ok(());
    }
    Err(judge_absent(n, manned, nodes, versions))
}
