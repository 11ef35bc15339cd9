// Opening a tree in lent words: the tables as document 01 has them, and the words of an idle record for each worker.
// It reads no old words, so that it can begin a new history in any rows that are long enough.
ghost use Rattle.std.specs.Prelude.{◌≡◌, ◌*◌, ◌≤◌, length};
ghost use Rattle.kitesonnet.specs.Seats.{record_words, seats_rested};
ghost use Rattle.kitesonnet.specs.Calls.{lent, number_by, back, kite_open_of};

use crate::RECORD_WORDS;
use crate::answers::number_told;
use crate::seats::put_record;
use judging::is_manned;
use records::rested;
use trie::Refusal;

// Workers 0 to w - 1 rest.
// Record by record, and not by a fill with zeros: which words an idle record has is for reading.rt and writing.rt to say.
#[tactic(auto, using(crate::proofs::SeatLaws::rested_first, crate::proofs::SeatLaws::rested_on))]
fn rest(w: usize, board: &mut [u64])
    requires { record_words * w ≤ length board.old }
    ensures { board.new ≡ seats_rested w board.old }
{
    for i in 0..w {
        put_record(board, i, rested());
    }
}

// Nothing rests where the tables are not opened.
#[tactic(auto, using(crate::proofs::CallLaws::manned_seats))]
fn open(
    n: u64,
    w: u64,
    nodes: &mut [u64],
    versions: &mut [u64],
    board: &mut [u64],
) -> Result<(), Refusal>
    ensures { back (number_by result) (lent nodes.new versions.new board.new) ≡ kite_open_of n w (lent nodes.old versions.old board.old) }
{
    if !tables::is_allowed(n) {
        return Err(Refusal::Cells);
    }
    if !is_manned(w, board.len() / RECORD_WORDS) {
        return Err(Refusal::Workers);
    }
    steps::open_tables(n, nodes, versions)?;
    rest(w as usize, board);
    Ok(())
}

// Begins a history: refusals 1, 2 and 3.
#[unsafe(no_mangle)]
pub extern "C" fn kite_open(
    n: u64,
    w: u64,
    nodes: &mut [u64],
    versions: &mut [u64],
    board: &mut [u64],
) -> u64
    ensures { back result (lent nodes.new versions.new board.new) ≡ kite_open_of n w (lent nodes.old versions.old board.old) }
{
    number_told(open(n, w, nodes, versions, board))
}
