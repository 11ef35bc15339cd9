// Rank adds what it passes on the left, and at its last step the leaf that it reaches.
// A sum past its bound is damage, and is never formed.
ghost use Rattle.std.specs.Prelude.{◌≡◌, leb};
ghost use Rattle.trie.specs.Choice.{pick};
ghost use Rattle.trie.specs.Refusing.{damaged};
ghost use Rattle.trie.specs.Asking.{passed_of, reached_of, rank_next, rank_seen, rank_of};

use crate::looking::{look, towards, turns_right};
use crate::plans::{answer, go_on};
use decibel::Energy;
use sound::add_within;
use trie::{Answer, Bounds, Damage, Fork, Phase, Plan, Standing};

// What is passed so far, with the left side where the way turns right, and with the leaf at the last step.
fn reach(
    right: bool,
    last: bool,
    running: u64,
    left: u64,
    leaf: u64,
    most: u64,
) -> Result<u64, Damage>
    ensures { result ≡ pick (leb (reached_of last leaf (passed_of right left running)) most) (Ok (reached_of last leaf (passed_of right left running))) damaged }
{
    let passed = add_within(running, if right { left } else { 0 }, most)?;
    add_within(passed, if last { leaf } else { 0 }, most)
}

// Count and energy are no struct here: they stand as two fields in `Answer::Sums` and in `Phase::Rank`, which callers match.
fn rank_next(k: u64, next: Standing, last: bool, count: u64, energy: u64) -> Plan
    ensures { Ok result ≡ rank_next k next last count energy }
{
    if last {
        answer(Answer::Sums(count, Energy(energy)))
    } else {
        go_on(Phase::Rank(k, next, count, Energy(energy)))
    }
}

fn rank_seen(
    b: Bounds,
    k: u64,
    right: bool,
    count: u64,
    energy: u64,
    f: Fork,
) -> Result<Plan, Damage>
    ensures { result ≡ rank_seen b k right count energy (Ok f) }
{
    let next = towards(right, f);
    let at = next.version;
    let left = f.left.version;
    let all = reach(right, f.last, count, left.count, at.count, b.cells)?;
    let sum = reach(right, f.last, energy, left.energy.0, at.energy.0, b.energy)?;
    Ok(rank_next(k, next.standing, f.last, all, sum))
}

#[tactic(auto, unfolding(trie::specs::Asking::rank_of))]
pub fn rank(
    b: Bounds,
    k: u64,
    s: Standing,
    count: u64,
    energy: Energy,
    versions: &[u64],
) -> Result<Plan, Damage>
    ensures { result ≡ rank_of b k s count energy versions.now }
{
    if !((k < b.cells) & ((count <= b.cells) & (energy.0 <= b.energy))) {
        return Err(Damage);
    }
    let f = look(b, s, versions)?;
    let right = turns_right(b, k, s.depth);
    rank_seen(b, k, right, count, energy.0, f)
}
