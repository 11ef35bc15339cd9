// What a call tells, in words: a refusal's number is returned, and an answer stands in three lent words.
// Words of the answer's row beyond the third are not written.
ghost use Rattle.std.specs.Prelude.{◌≡◌};
ghost use Rattle.trie.specs.Values.{value_of};
ghost use Rattle.kitesonnet.specs.Answers.{answer_put, value_put};
ghost use Rattle.kitesonnet.specs.Calls.{number_by};

use tables::put;
use trie::{Answer, Refusal};

// What C is told of a call: 0, or the refusal's number.
pub(crate) fn number_told(told: Result<(), Refusal>) -> u64
    ensures { result ≡ number_by told }
{
    match told {
        Ok(()) => 0,
        Err(refusal) => u64::from(refusal),
    }
}

// The kinds of answers, as C meets them in the row of `kite_step` and `kite_energy`. `Answer` is the enum of them, so that none stands between it and the numbers.
pub(crate) const ON_KIND: u64 = 0;

const YES_KIND: u64 = 1;

const NO_KIND: u64 = 2;

const NONE_KIND: u64 = 3;

const LEVEL_KIND: u64 = 4;

const CELL_KIND: u64 = 5;

const SUMS_KIND: u64 = 6;

pub(crate) const ENERGY_KIND: u64 = 7;

// The kind of an answer and its two values.
#[tactic(auto, unfolding(crate::specs::Answers::answer_put))]
pub(crate) fn put_answer(answer: &mut [u64], kind: u64, first: u64, second: u64)
    ensures { answer.new ≡ answer_put answer.old kind first second }
{
    put(answer, 0, kind);
    put(answer, 1, first);
    put(answer, 2, second);
}

pub(crate) fn put_value(answer: &mut [u64], value: Answer)
    ensures { answer.new ≡ value_put answer.old (value_of value) }
{
    match value {
        Answer::Yes => put_answer(answer, YES_KIND, 0, 0),
        Answer::No => put_answer(answer, NO_KIND, 0, 0),
        Answer::None => put_answer(answer, NONE_KIND, 0, 0),
        Answer::Level(level) => put_answer(answer, LEVEL_KIND, level.0, 0),
        Answer::Cell(cell) => put_answer(answer, CELL_KIND, cell, 0),
        Answer::Sums(count, energy) => put_answer(answer, SUMS_KIND, count, energy.0),
    }
}
