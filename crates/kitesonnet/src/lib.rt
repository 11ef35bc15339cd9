// The library that a boat's own program links: four calls on numbers and lent rows of words, for C and Rust.
// A worker's record stands in twelve words of the board; any words whatever may be lent, and no caller has to check first.
#![tactic(auto)]

mod answers;
mod converting;
mod opening;
mod operations;
mod promising;
mod reading;
mod seats;
mod starting;
mod stepping;
mod writing;

// The words of a worker's record, and those of an answer.
pub const RECORD_WORDS: usize = 12;

pub const ANSWER_WORDS: usize = 3;

// The calls are no twins of board's: words may be no record, which has a refusal at a place of its own, and an answer has a row.
pub use converting::kite_energy;
pub use opening::kite_open;
pub use starting::kite_start;
pub use stepping::kite_step;
