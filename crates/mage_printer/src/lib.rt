//! The text of a source, printed from its tree.
#![tactic(auto)]

mod constants;
mod expressions;
mod simple;
mod statements;
mod tokens;
mod whole;

pub use whole::print;
