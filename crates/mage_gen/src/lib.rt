//! What a generated source is: the text of a program that multiplies and adds, and the texts of its
//! inputs.
#![tactic(auto)]

mod inputs;
mod laws;
mod making;
mod order;
mod source;

pub use laws::{files_are_short, inputs_are_read};
pub use making::generate;
pub use order::{GenOrder, Generated};
