// A query's plans: its reading of the root, and each further step down the versions.
// Each function answers a plan and writes nothing.
#![tactic(auto)]

mod finding;
mod looking;
mod plans;
mod ranking;
mod root;
mod selecting;

pub use finding::find;
pub use ranking::rank;
pub use root::ask;
pub use selecting::select;
