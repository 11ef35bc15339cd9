// A query's first step: its reading of the root.
// Total answers here, and Select where there are too few cells.
ghost use Rattle.std.specs.Prelude.{◌≡◌};
ghost use Rattle.trie.specs.Asking.{first_of, ask_of};

use crate::plans::{answer, go_on};
use decibel::Energy;
use records::query_fits;
use sound::judged;
use tables::{load, word};
use trie::{
    Answer, Bounds, Damage, NodeNumber, Phase, Plan, Query, Standing, Version, VersionNumber,
};

fn first(q: Query, v: VersionNumber, r: Version) -> Plan
    ensures { Ok result ≡ first_of q v r }
{
    let root = Standing {
        depth: 0,
        version: v,
    };
    match q {
        Query::Find(k) => go_on(Phase::Find(k, root)),
        Query::Select(j) => {
            if r.count < j {
                answer(Answer::None)
            } else {
                go_on(Phase::Select(j, root, NodeNumber(1), 0))
            }
        }
        Query::Rank(k) => go_on(Phase::Rank(k, root, 0, Energy(0))),
        Query::Total => answer(Answer::Sums(r.count, r.energy)),
    }
}

#[tactic(auto, unfolding(trie::specs::Asking::ask_of))]
pub fn ask(b: Bounds, q: Query, nodes: &[u64], versions: &[u64]) -> Result<Plan, Damage>
    ensures { result ≡ ask_of b q nodes.now versions.now }
{
    if !query_fits(b.cells, q) {
        return Err(Damage);
    }
    let v = judged(b, false, versions, VersionNumber(word(nodes, 1)))?;
    Ok(first(q, v, load(versions, v)))
}
