//! The machine: it goes through one worker's directives, over a port of pages and links to other workers.
#![tactic(auto)]

mod course;
mod frames;
mod instructions;
mod laws;
mod machine;
mod room;
mod transfers;
mod turn;

pub use laws::steps_go_along;
pub use machine::Machine;
pub use turn::{Kind, Turn, Why};
