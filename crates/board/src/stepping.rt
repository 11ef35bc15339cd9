// A step advances one worker of the board: its record is stepped where it lies.
// No other record is read or written.
ghost use Rattle.std.specs.Prelude.{◌≡◌};
ghost use Rattle.trie.specs.Values.{Course, progress_of};
ghost use Rattle.trie.specs.Calls.{After, after, state, step_of};

use crate::in_place::step_in_place;
use judging::judge;
use trie::{Progress, Refusal, Worker};

// Advances worker i: refusals 1, 2, 3, 4, 6 and 9.
#[tactic(auto, using(crate::proofs::CallLaws::of_step))]
pub fn step(
    n: u64,
    w: u64,
    i: u64,
    nodes: &mut [u64],
    versions: &mut [u64],
    board: &mut [Worker],
) -> Result<Progress, Refusal>
    ensures { ◌≡◌ {A = After Course} (after (progress_of result) (state nodes.new versions.new board.new))
        (step_of n w i (state nodes.old versions.old board.old)) }
{
    judge(n, w, i, nodes.len(), versions.len(), board.len())?;
    step_in_place(n, &mut board[i as usize], nodes, versions)
}
