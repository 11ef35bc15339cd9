// A query's way down the versions, never through the node table.
// A version once read stays as it is, so the whole way shows one moment of the tree.
ghost use Rattle.std.specs.Prelude.{◌≡◌, ◌<◌, OnOk};
ghost use Rattle.trie.specs.Asking.{child_of, look_of, turns_right, towards};

use sound::is_sound;
use tables::{ancestor, load};
use trie::{Bounds, Child, Damage, Fork, Standing, VersionNumber};

fn child(depth: u64, v: VersionNumber, versions: &[u64]) -> Child
    ensures { result ≡ child_of depth versions.now v }
{
    Child {
        standing: Standing { depth, version: v },
        version: load(versions, v),
    }
}

// Judged are the version, as any word may stand in a record, and both children, as the left sums count also on the way right.
#[tactic(auto, unfolding(trie::specs::Asking::look_of, trie::specs::Sound::sound_in))]
pub(crate) fn look(b: Bounds, s: Standing, versions: &[u64]) -> Result<Fork, Damage>
    ensures value { result ≡ look_of b s versions.now }
    ensures above_the_leaves { OnOk result (s.depth < b.height) }
{
    if b.height <= s.depth {
        return Err(Damage);
    }
    let below = s.depth + 1;
    let last = below == b.height;
    let at = load(versions, s.version);
    let left = child(below, at.left, versions);
    let right = child(below, at.right, versions);
    if is_sound(b, false, s.version, at)
        & (is_sound(b, last, at.left, left.version) & is_sound(b, last, at.right, right.version))
    {
        Ok(Fork { left, right, last })
    } else {
        Err(Damage)
    }
}

// Whether the way to cell k turns right at this depth, where there are levels below.
pub(crate) fn turns_right(b: Bounds, k: u64, depth: u64) -> bool
    requires { depth < b.height }
    ensures { result ≡ turns_right b k depth }
{
    ancestor(k, b.height - (depth + 1)) % 2 == 1
}

pub(crate) fn towards(right: bool, f: Fork) -> Child
    ensures { result ≡ towards right f }
{
    if right { f.right } else { f.left }
}
