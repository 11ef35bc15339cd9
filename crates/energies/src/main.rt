// Writes what the conversion answers for each level from 0 to 62: the energy, or the refusal's number.
// The independent program second/energies.rs writes the same from the rule, and the gate compares the two.
#![tactic(auto)]

use decibel::{Energy, Level, TooLoud};
use std::io;
use trie::Refusal;

fn write_answer(rt: &impl Print, answer: Result<Energy, TooLoud>) -> io::Result<()> {
    match answer {
        Ok(energy) => print!(rt; "{}", energy.0),
        Err(loud) => print!(rt; "refused {}", u64::from(Refusal::from(loud))),
    }
}

fn write_level(rt: &impl Print, level: u64) -> io::Result<()> {
    print!(rt; "{level} ")?;
    write_answer(rt, decibel::convert(Level(level)))?;
    println!(rt)
}

fn main(rt: HostRuntime) -> io::Result<()> {
    for level in 0..63u64 {
        write_level(&rt, level)?;
    }
    Ok(())
}
