// A start records an operation in its worker, where all that is promised still has room.
// The tables are only read, and no other record is written.
ghost use Rattle.std.specs.Prelude.{◌≡◌};
ghost use Rattle.trie.specs.Values.{Ok, accepted_of};
ghost use Rattle.trie.specs.Calls.{After, after, state, start_of};

use crate::promising::{promised, share};
use judging::judge;
use trie::{Operation, Refusal, Worker};

// Starts an operation in worker i: refusals 1, 2, 3, 4, 5, 7, 9 and 8.
#[tactic(auto, using(crate::proofs::CallLaws::of_start))]
pub fn start(
    n: u64,
    w: u64,
    i: u64,
    o: Operation,
    nodes: &[u64],
    versions: &[u64],
    board: &mut [Worker],
) -> Result<(), Refusal>
    ensures { ◌≡◌ {A = After Ok} (after (accepted_of result) (state nodes.now versions.now board.new))
        (start_of n w i o (state nodes.now versions.now board.old)) }
{
    judge(n, w, i, nodes.len(), versions.len(), board.len())?;
    let sum = promised(share(n), w as usize, board);
    let worker = &mut board[i as usize];
    *worker = steps::start_record(n, o, sum, *worker, nodes, versions)?;
    Ok(())
}
