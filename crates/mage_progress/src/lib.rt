//! That machines over links are never all stuck, and that each step brings them nearer to their ends. Nothing here runs.
#![tactic(auto)]

mod laws;
mod machines;

pub use laws::machines_are_never_all_stuck;
pub use machines::machines_go_on;
