// One worker's record by itself: its step by value, judged and planned by its phase, then carried out.
// All writing to the tables is in `carry`, so a refused step visibly changes nothing.
#![tactic(auto)]

ghost use Rattle.std.specs.Prelude.{◌≡◌, ◌≤◌, Result};
ghost use Rattle.trie.specs.declared.Worker.{Worker};
ghost use Rattle.trie.specs.Size.{most_cells, tallest};
ghost use Rattle.trie.specs.Stepping.{stepped_by, plan_of, carry_of, step_record_of};

use asking::{ask, find, rank, select};
use climbing::refresh;
use marking::{read, swap};
use records::is_busy;
use sound::{bounds, is_used_sound};
use tables::{judge_tables, put, store};
use trie::{Bounds, Next, Phase, Plan, Refusal, Worker};

#[tactic(auto, unfolding(trie::specs::Stepping::carry_of))]
fn carry(plan: Plan, nodes: &mut [u64], versions: &mut [u64]) -> Next
    ensures { (w : Worker) → stepped_by (Result.Ok result) w nodes.new versions.new
        ≡ carry_of (Result.Ok plan) w nodes.old versions.old }
{
    match plan {
        Plan::Keep(next) => next,
        Plan::Put(next, v, x, r) => {
            store(versions, v, r);
            put(nodes, x.0, v.0);
            put(nodes, 0, v.0);
            next
        }
    }
}

// Each phase carries its plan out by itself: plans of all phases brought together first would be copied once more.
#[tactic(auto, unfolding(trie::specs::Stepping::plan_of, trie::specs::Stepping::carry_of))]
fn turn(b: Bounds, phase: Phase, nodes: &mut [u64], versions: &mut [u64]) -> Result<Next, Refusal>
    requires { (b.cells ≤ most_cells) × (b.height ≤ tallest) }
    ensures { (w : Worker) → stepped_by result w nodes.new versions.new
        ≡ carry_of (plan_of b phase nodes.old versions.old) w nodes.old versions.old }
{
    if !is_used_sound(b) {
        return Err(Refusal::Damaged);
    }
    match phase {
        Phase::Idle => Err(Refusal::Damaged),
        Phase::Read(u) => Ok(carry(read(b, u, nodes, versions)?, nodes, versions)),
        Phase::Swap(u, v) => Ok(carry(swap(b, u, v, nodes, versions)?, nodes, versions)),
        Phase::Refresh(c, held) => {
            Ok(carry(refresh(b, c, held, nodes, versions)?, nodes, versions))
        }
        Phase::Ask(q) => Ok(carry(ask(b, q, nodes, versions)?, nodes, versions)),
        Phase::Find(k, s) => Ok(carry(find(b, k, s, versions)?, nodes, versions)),
        Phase::Rank(k, s, count, energy) => {
            Ok(carry(rank(b, k, s, count, energy, versions)?, nodes, versions))
        }
        Phase::Select(j, s, x, passed) => {
            Ok(carry(select(b, j, s, x, passed, versions)?, nodes, versions))
        }
    }
}

// Steps one record on the lent tables: refusals 1, 3, 6 and 9.
#[tactic(auto, using(steps::proofs::Grants::bounds_are, crate::proofs::Heights::bounds_fit), unfolding(trie::specs::Stepping::step_record_of))]
pub fn step_record(
    n: u64,
    w: Worker,
    nodes: &mut [u64],
    versions: &mut [u64],
) -> Result<Next, Refusal>
    ensures { stepped_by result w nodes.new versions.new ≡ step_record_of n w nodes.old versions.old }
{
    judge_tables(n, nodes, versions)?;
    if !is_busy(w) {
        return Err(Refusal::Idle);
    }
    let b = bounds(n, nodes, versions);
    turn(b, w.phase, nodes, versions)
}
