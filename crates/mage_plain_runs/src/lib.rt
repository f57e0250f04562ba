//! What a program says in plain: that the core's wires come to the numbers that the program means. Nothing
//! here runs.
#![tactic(auto)]

mod examples;
mod laws;

pub use examples::examples_compute;
pub use laws::plain_runs_mean_the_same;
