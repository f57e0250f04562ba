//! What is in a label file: the labels of a worker's inputs of the evaluator, 16 bytes each, and how many they are.
#![tactic(auto)]

mod labels;
mod laws;
#[cfg(test)]
mod tests;
mod wires;

pub use labels::labels_in;
pub use laws::{as_many_labels, labels_are_read_back, read_labels_are_whole};
pub use wires::wires_due;
