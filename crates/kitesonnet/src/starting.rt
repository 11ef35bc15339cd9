// A start in lent words: an operation out of its three numbers, recorded in its worker's words.
// The tables are only read, and no other worker's words are written.
ghost use Rattle.std.specs.Prelude.{◌≡◌};
ghost use Rattle.kitesonnet.specs.Calls.{lent, number_by, back, kite_start_of};

use crate::RECORD_WORDS;
use crate::answers::number_told;
use crate::operations::operation_of;
use crate::promising::promised_in;
use crate::seats::{put_record, record_at};
use judging::judge;
use records::rested;
use trie::Refusal;

// An accepted start is recorded; a refused one writes nothing.
#[tactic(auto, using(crate::proofs::CallLaws::sits), unfolding(crate::specs::Calls::kite_start_of))]
fn start(
    n: u64,
    w: u64,
    i: u64,
    kind: u64,
    first: u64,
    second: u64,
    nodes: &[u64],
    versions: &[u64],
    board: &mut [u64],
) -> Result<(), Refusal>
    ensures { back (number_by result) (lent nodes.now versions.now board.new)
        ≡ kite_start_of n w i kind first second (lent nodes.now versions.now board.old) }
{
    let o = operation_of(kind, first, second).ok_or(Refusal::Command)?;
    let seats = board.len() / RECORD_WORDS;
    judge(n, w, i, nodes.len(), versions.len(), seats)?;
    // An update's share, 1 + h, is one addition, for which no crate below has a public function.
    let sum = promised_in(tables::height(n) + 1, w as usize, board);
    // Words that are no record stand for an idle one, so that 5 is not given for them: 9 is.
    let own = record_at(board, i as usize).unwrap_or(rested());
    let worker = steps::start_record(n, o, sum, own, nodes, versions)?;
    put_record(board, i as usize, worker);
    Ok(())
}

// Starts an operation in worker i: refusals 10, 1, 2, 3, 4, 5, 7, 9 and 8.
#[unsafe(no_mangle)]
pub extern "C" fn kite_start(
    n: u64,
    w: u64,
    i: u64,
    kind: u64,
    first: u64,
    second: u64,
    nodes: &[u64],
    versions: &[u64],
    board: &mut [u64],
) -> u64
    ensures { back result (lent nodes.now versions.now board.new)
        ≡ kite_start_of n w i kind first second (lent nodes.now versions.now board.old) }
{
    number_told(start(n, w, i, kind, first, second, nodes, versions, board))
}
