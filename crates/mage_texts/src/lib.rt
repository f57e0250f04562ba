//! The texts that commands read and say: the numbers of an input text, and the text of outputs.
#![tactic(auto)]

mod input_text;
mod output_lines;
#[cfg(test)]
mod tests;

pub use input_text::{InputFault, read_inputs};
pub use output_lines::output_text;
