// The energy of a level, told in words.
// Levels are logarithms: a program that wants a sum converts first and adds afterwards.
ghost use Rattle.std.specs.Prelude.{◌≡◌};
ghost use Rattle.kitesonnet.specs.Calls.{number_by, converted, kite_energy_of};

use crate::ANSWER_WORDS;
use crate::answers::{ENERGY_KIND, number_told, put_answer};
use decibel::{Level, convert};
use trie::Refusal;

#[tactic(auto, unfolding(crate::specs::Calls::kite_energy_of))]
fn energy(level: u64, answer: &mut [u64]) -> Result<(), Refusal>
    ensures { converted (number_by result) answer.new ≡ kite_energy_of level answer.old }
{
    if answer.len() < ANSWER_WORDS {
        return Err(Refusal::AnswerRow);
    }
    let energy = convert(Level(level))?;
    put_answer(answer, ENERGY_KIND, energy.0, 0);
    Ok(())
}

// Converts a level: refusals 20 and 7.
#[unsafe(no_mangle)]
pub extern "C" fn kite_energy(level: u64, answer: &mut [u64]) -> u64
    ensures { converted result answer.new ≡ kite_energy_of level answer.old }
{
    number_told(energy(level, answer))
}
