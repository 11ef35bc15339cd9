// The calls that begin: opening the lent tables, and starting an operation in one record.
// A start only records; what it needs to know of other workers is handed to it as one sum.
#![tactic(auto)]

mod opening;
mod starting;

pub use opening::open_tables;
pub use starting::start_record;
