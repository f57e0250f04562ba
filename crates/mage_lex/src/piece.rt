// What a text is cut into.
use crate::{LangKind, TokenKind};

// A byte of a text, by its index, its line and its column.
#[derive(Clone, Copy)]
pub struct Place {
    pub start: usize,
    pub line: u32,
    pub column: u32,
}

// What stands at the front of a text.
#[derive(Drop)]
pub enum Piece {
    // This many bytes of no token: white space or a comment.
    Gap(usize),
    // A token of this many bytes.
    Lexeme(TokenKind, usize),
    // A byte with which no token begins, or a bad number.
    Bad(LangKind),
}
