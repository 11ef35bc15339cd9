// The lent tables, word by word and version by version; no index of a caller's can fall outside.
// Whatever a table does not have reads as 0, and is not written.
ghost use Rattle.std.specs.Prelude.{◌≡◌, ◌&&◌, ◌*◌, ◌-◌, ◌/◌, Some, None, leb, get_or, set};
ghost use Rattle.trie.specs.Choice.{pick};
ghost use Rattle.trie.specs.Tables.{width, room_by, room_of, version_at, version_put, roomy_by, roomy, tables_judged};

use crate::size::is_allowed;
use decibel::{Energy, Level};
use trie::{MOST_VERSIONS, Refusal, VERSION_WORDS, Version, VersionNumber};

// `as`: u64 and usize have no From for one another, and `try_from` would bring a refusal that cannot occur, as the check proves that no bit is lost.
pub fn word(table: &[u64], i: u64) -> u64
    ensures { result ≡ get_or table.now i 0 }
{
    table.get(i as usize).copied().unwrap_or(0)
}

// No `get_mut`: of what it lends only the length is known afterwards, so that the proof does not close.
pub fn put(table: &mut [u64], i: u64, x: u64)
    ensures { table.new ≡ set table.old i x }
{
    let at = i as usize;
    if at < table.len() {
        table[at] = x;
    }
}

// Where the words of a version begin, if a table of so many words has it.
fn place(words: usize, v: VersionNumber) -> Option<usize>
    ensures { result ≡ pick (leb 1 v.0 && leb v.0 (words / width)) (Some (width * (v.0 - 1))) None }
{
    (1 <= v.0 && v.0 <= words as u64 / VERSION_WORDS).then(|| (VERSION_WORDS * (v.0 - 1)) as usize)
}

#[tactic(auto, unfolding(trie::specs::Tables::version_at))]
pub fn load(versions: &[u64], v: VersionNumber) -> Version
    ensures { result ≡ version_at versions.now v }
{
    let Some(at) = place(versions.len(), v) else {
        return Version::default();
    };
    Version {
        left: VersionNumber(versions[at]),
        right: VersionNumber(versions[at + 1]),
        count: versions[at + 2],
        energy: Energy(versions[at + 3]),
        level: Level(versions[at + 4]),
    }
}

#[tactic(auto, unfolding(trie::specs::Tables::version_put))]
pub fn store(versions: &mut [u64], v: VersionNumber, r: Version)
    ensures { versions.new ≡ version_put versions.old v r }
{
    let Some(at) = place(versions.len(), v) else {
        return;
    };
    versions[at] = r.left.0;
    versions[at + 1] = r.right.0;
    versions[at + 2] = r.count;
    versions[at + 3] = r.energy.0;
    versions[at + 4] = r.level.0;
}

// V of a table of so many words: a longer table is no refusal, but its further versions are not used.
pub fn room_by(words: usize) -> u64
    ensures { result ≡ room_by words }
{
    (words as u64 / VERSION_WORDS).min(MOST_VERSIONS)
}

#[tactic(auto, unfolding(trie::specs::Tables::room_of))]
pub fn room(versions: &[u64]) -> u64
    ensures { result ≡ room_of versions.now }
{
    room_by(versions.len())
}

// Whether tables of so many words are large enough. Twice n is never formed: it may be past the numbers.
pub fn is_roomy_by(n: u64, nodes: usize, versions: usize) -> bool
    ensures { result ≡ roomy_by n nodes versions }
{
    (n <= nodes as u64 / 2) & (n <= (room_by(versions) + 1) / 2)
}

#[tactic(auto, unfolding(trie::specs::Tables::roomy))]
pub fn is_roomy(n: u64, nodes: &[u64], versions: &[u64]) -> bool
    ensures { result ≡ roomy n nodes.now versions.now }
{
    is_roomy_by(n, nodes.len(), versions.len())
}

// What every call on lent tables begins with: refusals 1 and 3.
pub fn judge_tables(n: u64, nodes: &[u64], versions: &[u64]) -> Result<(), Refusal>
    ensures { result ≡ tables_judged n nodes.now versions.now }
{
    if !is_allowed(n) {
        return Err(Refusal::Cells);
    }
    if !is_roomy(n, nodes, versions) {
        return Err(Refusal::Tables);
    }
    Ok(())
}
