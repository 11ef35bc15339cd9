// The public calls of document 01: open, start and step, on lent tables and a lent row of workers; and the step of one lent record.
// A start or a step writes one worker's record, where it lies, and no other; an open rests the workers 0 to W - 1.
#![tactic(auto)]

mod in_place;
mod opening;
mod promising;
mod starting;
mod stepping;

pub use in_place::step_in_place;
pub use opening::open;
pub use starting::start;
pub use stepping::step;
