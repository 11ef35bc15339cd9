// The bounds that a call is judged by, and whether a version may stand at a leaf or at an inner place.
// Nothing is trusted here: any word may stand in a lent table.
#![tactic(auto)]

ghost use Rattle.std.specs.Prelude.{◌≡◌, ◌+◌, ◌≤◌, leb};
ghost use Rattle.trie.specs.Choice.{pick};
ghost use Rattle.trie.specs.Refusing.{damaged};
ghost use Rattle.trie.specs.Size.{most_cells};
ghost use Rattle.trie.specs.Sound.{bounds_of, used_sound, numbered, leaf_sound, inner_sound, sound_at, sound_in, sum_in};

use decibel::{CELL_ENERGY, LOUDEST};
use tables::{height, load, room, word};
use trie::{Bounds, Damage, MOST_CELLS, Version, VersionNumber};

// As many cells as a tree may have, else none. 0 stands for none, as `bounds` cannot fail.
fn within_a_tree(n: u64) -> u64
    ensures value { result ≡ pick (leb n most_cells) n 0 }
    ensures upper_bound { result ≤ most_cells }
{
    if n <= MOST_CELLS { n } else { 0 }
}

// Where no tree has n cells these are the bounds of none.
#[tactic(auto, unfolding(trie::specs::Sound::bounds_of, trie::specs::Size::height_of))]
pub fn bounds(n: u64, nodes: &[u64], versions: &[u64]) -> Bounds
    ensures { result ≡ bounds_of (pick (leb n most_cells) n 0) nodes.now versions.now }
{
    let cells = within_a_tree(n);
    let tall = height(cells);
    Bounds {
        cells,
        height: tall,
        energy: cells * CELL_ENERGY,
        share: tall + 1,
        used: word(nodes, 0),
        room: room(versions),
    }
}

#[tactic(auto, unfolding(trie::specs::Sound::used_sound))]
pub fn is_used_sound(b: Bounds) -> bool
    ensures { result ≡ used_sound b }
{
    (b.cells <= b.used.div_ceil(2)) & (b.used <= b.room)
}

// No branch hangs on whether the cell is marked, as nothing foretells that: where the count is 0, so are the bounds.
fn is_leaf(r: Version) -> bool
    ensures { result ≡ leaf_sound r }
{
    let count = r.count;
    let bare = (r.left.0 == 0) & (r.right.0 == 0);
    count <= 1 && (bare & ((r.energy.0 <= count * CELL_ENERGY) & (r.level.0 <= count * LOUDEST)))
}

fn is_inner(b: Bounds, r: Version) -> bool
    ensures { result ≡ inner_sound b r }
{
    is_numbered(b, r.left)
        && is_numbered(b, r.right)
        && (((r.count <= b.cells) & (r.energy.0 <= b.energy)) & (r.level.0 == 0))
}

fn is_numbered(b: Bounds, v: VersionNumber) -> bool
    ensures { result ≡ numbered b v }
{
    (1 <= v.0) & (v.0 <= b.used)
}

fn is_placed(b: Bounds, leaf: bool, r: Version) -> bool
    ensures { result ≡ pick leaf (leaf_sound r) (inner_sound b r) }
{
    if leaf { is_leaf(r) } else { is_inner(b, r) }
}

#[tactic(auto, unfolding(trie::specs::Sound::sound_at))]
pub fn is_sound(b: Bounds, leaf: bool, v: VersionNumber, r: Version) -> bool
    ensures { result ≡ sound_at b leaf v r }
{
    is_numbered(b, v) && is_placed(b, leaf, r)
}

// The version of number v, as it stands in the table; it is read only where there is such a number.
// Not `is_sound` of a loaded version, which would be read before its number is judged.
// Inlined, as `judged` is: a call for each of a refresh's versions makes every step a tenth longer.
#[tactic(auto, unfolding(trie::specs::Sound::sound_in, trie::specs::Sound::sound_at))]
#[inline(always)]
pub fn is_sound_in(b: Bounds, leaf: bool, versions: &[u64], v: VersionNumber) -> bool
    ensures { result ≡ sound_in b leaf versions.now v }
{
    is_numbered(b, v) && is_placed(b, leaf, load(versions, v))
}

// The number of a version that may stand there, as it stands in the table; any other is damage.
#[inline(always)]
pub fn judged(
    b: Bounds,
    leaf: bool,
    versions: &[u64],
    v: VersionNumber,
) -> Result<VersionNumber, Damage>
    ensures { result ≡ pick (sound_in b leaf versions.now v) (Ok v) damaged }
{
    is_sound_in(b, leaf, versions, v).then_some(v).ok_or(Damage)
}

// Whether a sum stays within a bound, without forming it where it would not.
pub fn is_within(a: u64, b: u64, most: u64) -> bool
    ensures { result ≡ leb (a + b) most }
{
    a <= most && b <= most - a
}

// A sum that stays within a bound, and 0 for one that does not. It cannot fail, as docs/CONTRACTS.md has it; `add_within` below can.
pub fn sum_within(a: u64, b: u64, most: u64) -> u64
    ensures { result ≡ pick (leb (a + b) most) (a + b) 0 }
{
    add_within(a, b, most).unwrap_or(0)
}

// A sum that stays within a bound; one that does not is damage.
pub fn add_within(a: u64, b: u64, most: u64) -> Result<u64, Damage>
    ensures { result ≡ sum_in a b most }
{
    a.checked_add(b).filter(|&sum| sum <= most).ok_or(Damage)
}
