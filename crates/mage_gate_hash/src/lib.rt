//! Four gate hashes at once, in the lanes of vectors: what garbling an AND takes.
#![tactic(auto)]

mod compression;
mod constants;
mod hashes;
mod operators;
#[cfg(test)]
mod tests;
mod words;

pub use hashes::{GateHashes, gate_hashes};
