//! Tests of runs on one thread: small memory programs, in plain, garbled and evaluated, over stores, sinks and sources in memory.
#![tactic(auto)]

mod evaluated;
#[cfg(test)]
mod evaluated_tests;
mod garbled;
#[cfg(test)]
mod garbled_tests;
mod one;
#[cfg(test)]
mod tests;
mod two;

pub use evaluated::{Decoded, evaluate_alone};
pub use garbled::{Lone, Pair, Sinks, garble_alone, garble_pair};
pub use one::{Alone, run_alone};
pub use two::{Fails, Given, run_pair};
