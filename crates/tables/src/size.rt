// Which numbers of cells are allowed, and how high their tree is.
// One set bit makes a number of cells; the zero bits below it are the levels of the tree.
ghost use Rattle.std.specs.Prelude.{◌≡◌, ◌/◌, ◌^◌};
ghost use Rattle.trie.specs.Size.{allowed, height_of};

use trie::MOST_CELLS;

#[tactic(auto, unfolding(trie::specs::Size::allowed))]
pub fn is_allowed(n: u64) -> bool
    ensures { result ≡ allowed n }
{
    (n.count_ones() == 1) & ((2 <= n) & (n <= MOST_CELLS))
}

#[tactic(auto, unfolding(trie::specs::Size::height_of))]
pub fn height(n: u64) -> u64
    ensures { result ≡ height_of n }
{
    u64::from(n.trailing_zeros())
}

// The ancestor of x that many levels up, and 0 above the root.
// No `checked_shr`: it takes 32 bits, and a number of levels that has more would be cut first.
pub fn ancestor(x: u64, levels: u64) -> u64
    ensures { result ≡ x / 2 ^ levels }
{
    if 63 < levels {
        return 0;
    }
    x >> levels
}
