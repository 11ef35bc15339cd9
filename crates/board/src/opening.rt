// Open fills the tables and rests the workers 0 to W - 1; records at W and beyond are untouched.
// It reads nothing of what was there, so that it can begin a new history.
ghost use Rattle.std.specs.Prelude.{◌≡◌};
ghost use Rattle.trie.specs.Values.{Ok, accepted_of};
ghost use Rattle.trie.specs.Calls.{After, after, state, open_of};

use judging::is_manned;
use records::rested;
use trie::{Refusal, Worker};

// Begins a history: refusals 1, 2 and 3. Nothing rests where the tables are not opened.
#[tactic(auto, using(crate::proofs::CallLaws::of_open), unfolding(trie::specs::Calls::open_of, trie::specs::Opening::open_tables_of))]
pub fn open(
    n: u64,
    w: u64,
    nodes: &mut [u64],
    versions: &mut [u64],
    board: &mut [Worker],
) -> Result<(), Refusal>
    ensures { ◌≡◌ {A = After Ok} (after (accepted_of result) (state nodes.new versions.new board.new))
        (open_of n w (state nodes.old versions.old board.old)) }
{
    if !tables::is_allowed(n) {
        return Err(Refusal::Cells);
    }
    if !is_manned(w, board.len()) {
        return Err(Refusal::Workers);
    }
    steps::open_tables(n, nodes, versions)?;
    board[..w as usize].fill(rested());
    Ok(())
}
