// Find goes down to its cell's leaf and answers the level there, or none.
// What it passes on the way is judged and not kept.
ghost use Rattle.std.specs.Prelude.{◌≡◌};
ghost use Rattle.trie.specs.Asking.{level_of, find_seen, find_of};

use crate::looking::{look, towards, turns_right};
use crate::plans::{answer, go_on};
use trie::{Answer, Bounds, Damage, Fork, Phase, Plan, Standing, Version};

fn level_of(r: Version) -> Answer
    ensures { result ≡ level_of r }
{
    if r.count == 1 {
        Answer::Level(r.level)
    } else {
        Answer::None
    }
}

fn find_seen(k: u64, right: bool, f: Fork) -> Plan
    ensures { Ok result ≡ find_seen k right (Ok f) }
{
    let next = towards(right, f);
    if f.last {
        answer(level_of(next.version))
    } else {
        go_on(Phase::Find(k, next.standing))
    }
}

#[tactic(auto, unfolding(trie::specs::Asking::find_of))]
pub fn find(b: Bounds, k: u64, s: Standing, versions: &[u64]) -> Result<Plan, Damage>
    ensures { result ≡ find_of b k s versions.now }
{
    if b.cells <= k {
        return Err(Damage);
    }
    let f = look(b, s, versions)?;
    let right = turns_right(b, k, s.depth);
    Ok(find_seen(k, right, f))
}
