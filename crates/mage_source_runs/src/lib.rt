//! That the memory program of a source can be run in its place, and moves as many pages as its summary says: laws; nothing here
//! runs.
#![tactic(auto)]

mod laws;

pub use laws::{plans_move_as_counted, sources_can_be_run};
