//! The reader of the language: from tokens to the tree of a source.
#![tactic(auto)]

mod blocks;
mod constants;
mod expressions;
mod front;
mod laws;
mod level;
mod statements;
mod stop;
mod whole;

pub use laws::{depth_of_room, one_answer, one_tree, reading_is_the_grammar, stops_at_first_wrong};
pub use whole::parse;
