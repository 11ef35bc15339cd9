// Select goes left where the left count is at least what is still to be passed, and right where it is less.
// What is passed on the left is kept, so that j stays as it was asked.
ghost use Rattle.std.specs.Prelude.{◌≡◌, ◌+◌, ◌-◌, ◌<◌, ◌≤◌, leb};
ghost use Rattle.trie.specs.Size.{tallest};
ghost use Rattle.trie.specs.Leaf.{sure};
ghost use Rattle.trie.specs.Asking.{select_next, select_right, select_seen, select_of};

use crate::looking::look;
use crate::plans::{answer, go_on};
use sound::add_within;
use tables::ancestor;
use trie::{Answer, Bounds, Damage, Fork, NodeNumber, Phase, Plan, Standing, TALLEST};

fn select_next(b: Bounds, j: u64, next: Standing, x: u64, passed: u64, last: bool) -> Plan
    ensures { Ok result ≡ select_next b j next x passed last }
{
    if last {
        answer(Answer::Cell(x.saturating_sub(b.cells)))
    } else {
        go_on(Phase::Select(j, next, NodeNumber(x), passed))
    }
}

// The left side has too few: right, and its count is passed. The sum is judged also at the last step, which forms it too.
fn select_right(b: Bounds, j: u64, x: u64, passed: u64, f: Fork) -> Result<Plan, Damage>
    ensures { result ≡ select_right b j x passed f }
{
    let left_behind = f.left.version;
    let more = add_within(passed, left_behind.count, b.cells)?;
    Ok(select_next(b, j, f.right.standing, x, more, f.last))
}

fn select_seen(b: Bounds, j: u64, x: u64, passed: u64, f: Fork) -> Result<Plan, Damage>
    requires { (x < 4611686018427387904) × (passed ≤ j) }
    ensures { result ≡ select_seen b j x passed (Ok f) }
{
    let left = f.left;
    if j - passed <= left.version.count {
        Ok(select_next(b, j, left.standing, 2 * x, passed, f.last))
    } else {
        select_right(b, j, 2 * x + 1, passed, f)
    }
}

#[tactic(auto, using(crate::proofs::Depths::select_small), unfolding(trie::specs::Asking::select_of))]
pub fn select(
    b: Bounds,
    j: u64,
    s: Standing,
    x: NodeNumber,
    passed: u64,
    versions: &[u64],
) -> Result<Plan, Damage>
    ensures { result ≡ sure (leb b.height tallest) (select_of b j s x passed versions.now) }
{
    if TALLEST < b.height {
        return Err(Damage);
    }
    if !(((passed < j) & (passed <= b.cells)) & (ancestor(x.0, s.depth) == 1)) {
        return Err(Damage);
    }
    let f = look(b, s, versions)?;
    select_seen(b, j, x.0, passed, f)
}
