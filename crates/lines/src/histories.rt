// The N, W and V of the history that is under way; zeros before the first accepted open.
// Only an accepted open changes them.
ghost use Rattle.std.specs.Prelude.{◌≡◌};
ghost use Rattle.lines.specs.Watch.{opened};
ghost use Rattle.lines.specs.Calling.{words_of};

use crate::{History, LISTED_CELLS, LISTED_VERSIONS};
use trie::{MOST_WORKERS, VERSION_WORDS};

#[tactic(auto, unfolding(crate::specs::Watch::opened))]
pub(crate) fn is_open(h: History) -> bool
    ensures { result ≡ opened h }
{
    if !tables::is_allowed(h.cells) {
        return false;
    }
    h.cells <= LISTED_CELLS
        && 1 <= h.workers
        && h.workers <= MOST_WORKERS as u64
        && 2 * h.cells - 1 <= h.versions
        && h.versions <= LISTED_VERSIONS
}

// The words that are lent where V is v; none where that is more than there are here, so that an open of it is refused with 3.
pub(crate) fn words(v: u64) -> usize
    ensures { result ≡ words_of v }
{
    if v <= LISTED_VERSIONS {
        (VERSION_WORDS * v) as usize
    } else {
        0
    }
}
