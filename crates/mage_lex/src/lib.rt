//! The text of the source language as tokens, and what can be wrong with a text.
#![tactic(auto)]

mod fault;
mod front;
mod lexer;
mod piece;
mod place;
pub mod symbols;
mod token;
mod words;

pub use fault::{LangFault, LangKind};
pub use lexer::{MOST_BYTES, lex};
pub use token::{Text, Token, TokenKind};
pub use words::{is_keyword, is_name, is_type_word};

#[cfg(test)]
mod tests;
