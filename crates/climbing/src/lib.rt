// A refresh of an inner node: three reads and a swap, and one second refresh where that swap fails.
// Nothing is written here: each function answers a plan.
#![tactic(auto)]

ghost use Rattle.std.specs.Prelude.{◌≡◌, true, false, ◌&&◌, ◌+◌, leb};
ghost use Rattle.trie.specs.Choice.{pick};
ghost use Rattle.trie.specs.Refusing.{damaged};
ghost use Rattle.trie.specs.Size.{most_cells};
ghost use Rattle.trie.specs.Tables.{version_at};
ghost use Rattle.trie.specs.Leaf.{sure};
ghost use Rattle.trie.specs.Refreshing.{rises, missed, holds, place_sum, sum_of, refresh_of};

use decibel::{Energy, Level};
use marking::{climb_from, plan_swap};
use records::climb_fits;
use sound::{add_within, judged};
use tables::{load, word};
use trie::{
    Answer, Bounds, Climb, Damage, Held, Next, Phase, Plan, Version, VersionNumber, Worker,
};

// Done with a node: at the root the update answers, else it goes on at the parent.
fn rise(c: Climb, made: u64) -> Next
    ensures { result ≡ rises c made }
{
    if c.node.0 == 1 {
        Next::Done(if c.yes { Answer::Yes } else { Answer::No })
    } else {
        climb_from(c.node, c.update, c.yes, made)
    }
}

// A failed swap adds no version. One second refresh, and no third: with it the mark is up, whoever put it there.
fn miss(c: Climb) -> Next
    ensures { result ≡ missed c }
{
    if c.second {
        rise(c, c.made)
    } else {
        let again = Climb { second: true, ..c };
        Next::On(Worker {
            phase: Phase::Refresh(again, Held::Nothing),
        })
    }
}

fn hold(c: Climb, held: Held) -> Plan
    ensures { Ok result ≡ holds c held }
{
    Plan::Keep(Next::On(Worker {
        phase: Phase::Refresh(c, held),
    }))
}

// Where the node still has the version read, the sum of its children takes its place.
// Inlined, as `join` is: behind several `?` the compiler takes a call for rare, and a plan that comes back through memory makes every line of a listing a third longer.
#[inline(always)]
fn place_sum(b: Bounds, c: Climb, now: u64, v: VersionNumber, sum: Version) -> Result<Plan, Damage>
    ensures { result ≡ place_sum b c now v sum }
{
    if now != v.0 {
        return Ok(Plan::Keep(miss(c)));
    }
    if c.made < b.share {
        plan_swap(b, c.node, sum, rise(c, c.made + 1))
    } else {
        Err(Damage)
    }
}

// The sums are judged before they are formed.
#[inline(always)]
fn join(b: Bounds, l: VersionNumber, r: VersionNumber, versions: &[u64]) -> Result<Version, Damage>
    ensures { result
        ≡ pick
        (leb ((version_at versions.now l).count + (version_at versions.now r).count) b.cells
        && leb ((version_at versions.now l).energy.0 + (version_at versions.now r).energy.0) b.energy)
        (Ok (sum_of l r (version_at versions.now l) (version_at versions.now r)))
        damaged }
{
    let left = load(versions, l);
    let right = load(versions, r);
    let count = add_within(left.count, right.count, b.cells)?;
    let energy = add_within(left.energy.0, right.energy.0, b.energy)?;
    Ok(Version {
        left: l,
        right: r,
        count,
        energy: Energy(energy),
        level: Level(0),
    })
}

// What a refresh has read is judged again at each further step, as any word may stand in a record.
#[tactic(auto, using(crate::proofs::Nodes::climb_node), unfolding(trie::specs::Refreshing::refresh_of, trie::specs::Refreshing::join_of))]
pub fn refresh(
    b: Bounds,
    c: Climb,
    held: Held,
    nodes: &[u64],
    versions: &[u64],
) -> Result<Plan, Damage>
    ensures { result ≡ sure (leb b.cells most_cells) (refresh_of b c held nodes.now versions.now) }
{
    if !climb_fits(b, c) {
        return Err(Damage);
    }
    let left = 2 * c.node.0;
    let leaves = b.cells <= left;
    match held {
        Held::Nothing => {
            let v = judged(b, false, versions, VersionNumber(word(nodes, c.node.0)))?;
            Ok(hold(c, Held::Node(v)))
        }
        Held::Node(v) => {
            judged(b, false, versions, v)?;
            let l = judged(b, leaves, versions, VersionNumber(word(nodes, left)))?;
            Ok(hold(c, Held::Left(v, l)))
        }
        Held::Left(v, l) => {
            judged(b, false, versions, v)?;
            judged(b, leaves, versions, l)?;
            let r = judged(b, leaves, versions, VersionNumber(word(nodes, left + 1)))?;
            Ok(hold(c, Held::Both(v, l, r)))
        }
        Held::Both(v, l, r) => {
            judged(b, false, versions, v)?;
            judged(b, leaves, versions, l)?;
            judged(b, leaves, versions, r)?;
            let sum = join(b, l, r, versions)?;
            place_sum(b, c, word(nodes, c.node.0), v, sum)
        }
    }
}
