//! The labels that are dealt to a worker's evaluator, as the bytes of a file.
#![tactic(auto)]

mod file;
mod inputs;
mod instrs;
mod laws;
#[cfg(test)]
mod tests;

pub use file::label_file;
pub use laws::law_of_dealing;
