// A step in lent words: the worker's words are read as a record, stepped by value, and written again.
// What the step tells stands in the answer's words; no other worker's words are read or written.
ghost use Rattle.std.specs.Prelude.{◌≡◌};
ghost use Rattle.kitesonnet.specs.Calls.{lent, number_by, back, answered, kite_step_of};
ghost use Rattle.kitesonnet.specs.OneRecord.{lost_in};

use crate::answers::{ON_KIND, number_told, put_answer, put_value};
use crate::seats::{put_record, record_at};
use crate::{ANSWER_WORDS, RECORD_WORDS};
use judging::judge;
use records::rested;
use single::step_record;
use tables::judge_tables;
use trie::{Next, Refusal};

// The refusal of a worker whose words are no record: 1 and 3 go before 9.
fn refusal_of_lost(n: u64, nodes: &[u64], versions: &[u64]) -> Refusal
    ensures { result ≡ lost_in n nodes.now versions.now }
{
    let judged = judge_tables(n, nodes, versions);
    judged.err().unwrap_or(Refusal::Damaged)
}

// After an answer the words are those of an idle record.
#[tactic(auto, using(crate::proofs::CallLaws::sits), unfolding(crate::specs::Calls::kite_step_of))]
fn step(
    n: u64,
    w: u64,
    i: u64,
    nodes: &mut [u64],
    versions: &mut [u64],
    board: &mut [u64],
    answer: &mut [u64],
) -> Result<(), Refusal>
    ensures { answered (back (number_by result) (lent nodes.new versions.new board.new)) answer.new
        ≡ kite_step_of n w i (lent nodes.old versions.old board.old) answer.old }
{
    if answer.len() < ANSWER_WORDS {
        return Err(Refusal::AnswerRow);
    }
    let seats = board.len() / RECORD_WORDS;
    judge(n, w, i, nodes.len(), versions.len(), seats)?;
    let at = i as usize;
    let Some(own) = record_at(board, at) else {
        return Err(refusal_of_lost(n, nodes, versions));
    };
    match step_record(n, own, nodes, versions)? {
        Next::On(worker) => {
            put_record(board, at, worker);
            put_answer(answer, ON_KIND, 0, 0);
        }
        Next::Done(value) => {
            put_record(board, at, rested());
            put_value(answer, value);
        }
    }
    Ok(())
}

// Advances worker i: refusals 20, 1, 2, 3, 4, 6 and 9.
#[unsafe(no_mangle)]
pub extern "C" fn kite_step(
    n: u64,
    w: u64,
    i: u64,
    nodes: &mut [u64],
    versions: &mut [u64],
    board: &mut [u64],
    answer: &mut [u64],
) -> u64
    ensures { answered (back result (lent nodes.new versions.new board.new)) answer.new
        ≡ kite_step_of n w i (lent nodes.old versions.old board.old) answer.old }
{
    number_told(step(n, w, i, nodes, versions, board, answer))
}
