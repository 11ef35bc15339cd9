// An update at its leaf: the read, and the swap where the cell is not yet as wanted.
// Nothing is written here: each function answers a plan.
#![tactic(auto)]

ghost use Rattle.std.specs.Prelude.{◌≡◌, true, ◌&&◌, leb};
ghost use Rattle.trie.specs.Choice.{pick};
ghost use Rattle.trie.specs.Refusing.{damaged};
ghost use Rattle.trie.specs.Size.{most_cells};
ghost use Rattle.trie.specs.Record.{update_fits, leaf_of};
ghost use Rattle.trie.specs.Leaf.{sure, as_wanted, wanted, climbs_from, swapped, read_of, swap_of};

use records::{cell, update_fits};
use sound::judged;
use tables::{load, word};
use trie::{
    Bounds, Climb, Damage, Held, MOST_CELLS, Next, NodeNumber, Phase, Plan, Update, Version,
    VersionNumber, Worker,
};

fn is_as_wanted(u: Update, r: Version) -> bool
    ensures { result ≡ as_wanted u r }
{
    match u {
        Update::Insert(_, _) => r.count == 1,
        Update::Delete(_) => r.count != 1,
    }
}

// The level is converted here, once, by the conversion alone.
fn new_leaf(n: u64, u: Update) -> Version
    requires { update_fits n u ≡ true }
    ensures { result ≡ wanted u }
{
    match u {
        Update::Insert(_, level) => Version {
            count: 1,
            energy: decibel::convert(level).unwrap(),
            level,
            ..Version::default()
        },
        Update::Delete(_) => Version::default(),
    }
}

// Whether yes or no: the climb goes on at the parent of x.
pub fn climb_from(x: NodeNumber, u: Update, yes: bool, made: u64) -> Next
    ensures { result ≡ climbs_from x.0 u yes made }
{
    let climb = Climb {
        update: u,
        yes,
        node: NodeNumber(x.0 / 2),
        second: false,
        made,
    };
    Next::On(Worker {
        phase: Phase::Refresh(climb, Held::Nothing),
    })
}

// One place plans a new version: it takes the next number.
pub fn plan_swap(b: Bounds, x: NodeNumber, r: Version, next: Next) -> Result<Plan, Damage>
    ensures { result ≡ swapped b x.0 r next }
{
    if b.used < b.room {
        Ok(Plan::Put(next, VersionNumber(b.used + 1), x, r))
    } else {
        Err(Damage)
    }
}

// The leaf of the update's cell; an update that fits no tree is damage.
fn leaf(b: Bounds, u: Update) -> Result<NodeNumber, Damage>
    ensures { result ≡ pick (leb b.cells most_cells && update_fits b.cells u) (Ok (record { 0 = leaf_of b u })) damaged }
{
    let n = b.cells;
    if MOST_CELLS < n {
        return Err(Damage);
    }
    if !update_fits(n, u) {
        return Err(Damage);
    }
    Ok(NodeNumber(n + cell(u)))
}

#[tactic(auto, unfolding(trie::specs::Leaf::read_of))]
pub fn read(b: Bounds, u: Update, nodes: &[u64], versions: &[u64]) -> Result<Plan, Damage>
    ensures { result ≡ sure (leb b.cells most_cells) (read_of b u nodes.now versions.now) }
{
    let x = leaf(b, u)?;
    let v = judged(b, true, versions, VersionNumber(word(nodes, x.0)))?;
    if is_as_wanted(u, load(versions, v)) {
        Ok(Plan::Keep(climb_from(x, u, false, 0)))
    } else {
        Ok(Plan::Keep(Next::On(Worker {
            phase: Phase::Swap(u, v),
        })))
    }
}

#[tactic(auto, unfolding(trie::specs::Leaf::swap_of))]
pub fn swap(
    b: Bounds,
    u: Update,
    v: VersionNumber,
    nodes: &[u64],
    versions: &[u64],
) -> Result<Plan, Damage>
    ensures { result ≡ sure (leb b.cells most_cells) (swap_of b u v nodes.now versions.now) }
{
    let x = leaf(b, u)?;
    judged(b, true, versions, v)?;
    if word(nodes, x.0) != v.0 {
        return Ok(Plan::Keep(climb_from(x, u, false, 0)));
    }
    plan_swap(b, x, new_leaf(b.cells, u), climb_from(x, u, true, 1))
}
