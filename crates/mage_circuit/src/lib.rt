//! The circuit of each instruction, made by any driver.
#![tactic(auto)]

mod comparisons;
mod counts;
mod each;
mod execution;
mod gates;
mod moves;
mod products;
mod quotients;
mod scratch;
mod sums;
mod tally;

pub use execution::{exec, is_made};
pub use scratch::Scratch;
pub use tally::TallyDriver;
