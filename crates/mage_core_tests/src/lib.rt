//! Tests of the serial run: small memory programs in plain, over stores in memory.
#![tactic(auto)]

mod one;
#[cfg(test)]
mod tests;
mod two;

pub use one::{Alone, run_alone};
pub use two::{Pair, Worker, run_pair};
