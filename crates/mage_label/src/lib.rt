//! Labels of wires, for garbling by half gates: their xor and lowest bit, and the labels that a
//! seed and SHA-256 give.
#![tactic(auto)]

mod digests;
mod labels;
mod laws;
#[cfg(test)]
mod tests;

pub use digests::{hash, input_label, offset};
pub use labels::Label;
pub use laws::laws_of_labels;
