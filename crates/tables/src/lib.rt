// The lent tables: which numbers of cells are allowed, and the tables' words, versions and rooms.
// Nothing here has a condition for its caller: any number may stand in a table, or for N.
// Both tables stay slices by themselves: C lends them so (`kite_open`, `kite_start`, `kite_step`), and the public functions take them so.
#![tactic(auto)]

mod size;
mod words;

pub use size::{ancestor, height, is_allowed};
pub use words::{is_roomy, is_roomy_by, judge_tables, load, put, room, room_by, store, word};
