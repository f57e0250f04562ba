// Tokens, and the text of a word.
ghost use Rattle.std.specs.Prelude.{◌≡◌, ℕ, List, IfOk};

use mage_base::Memory;
use std::alloc::{AllocError, Global};
use std::marker::Model;

/// The bytes of a word. Contracts see it as their list.
#[derive(Debug, Drop)]
pub struct Text {
    bytes: Vec<u8>,
}

impl Model for Text {
    ghost Value = { List ℕ };

    ghost view = { λ t. t.bytes.items };
}

impl Text {
    /// A text of these bytes.
    pub fn make(alloc: Global, bytes: &[u8]) -> Result<Text, Memory>
        ensures { IfOk result (λ text. text ≡ bytes.now) }
    {
        let mut copy = Vec::with_capacity(alloc, bytes.len())?;
        copy.extend_from_slice(bytes)?;
        Ok(Text { bytes: copy })
    }

    /// The bytes of the text.
    pub fn bytes(&self) -> &[u8]
        ensures { result.now ≡ self.now }
    {
        self.bytes.as_slice()
    }
}

impl Clone for Text {
    ghost is_clone = { λ text copy. copy ≡ text };

    fn clone(&self) -> Result<Text, AllocError> {
        Ok(Text {
            bytes: self.bytes.clone()?,
        })
    }
}

/// What a token is.
#[derive(Clone, Debug, Drop)]
pub enum TokenKind {
    /// A word: a keyword, a type word or a name.
    Word(Text),
    /// A number of at most 2^127 - 1.
    Number(u128),
    /// The symbol of this row (`symbols`).
    Symbol(u8),
}

/// A token, and where it stands in the text.
#[derive(Clone, Debug, Drop)]
pub struct Token {
    /// What the token is.
    pub kind: TokenKind,
    /// The index of its first byte in the text.
    pub start: u32,
    /// The number of its bytes.
    pub len: u32,
    /// The line of its first byte, from 1.
    pub line: u32,
    /// The column of its first byte, from 1, in bytes.
    pub column: u32,
}

impl TokenKind {
    /// A copy of the kind.
    pub fn try_clone(&self) -> Result<TokenKind, Memory>
        ensures { IfOk result (λ copy. copy ≡ self.now) }
    {
        match self {
            TokenKind::Word(text) => Ok(TokenKind::Word(text.clone()?)),
            TokenKind::Number(value) => Ok(TokenKind::Number(*value)),
            TokenKind::Symbol(row) => Ok(TokenKind::Symbol(*row)),
        }
    }
}

impl Token {
    /// A copy of the token.
    pub fn try_clone(&self) -> Result<Token, Memory>
        ensures { IfOk result (λ copy. copy ≡ self.now) }
    {
        Ok(Token {
            kind: self.kind.try_clone()?,
            start: self.start,
            len: self.len,
            line: self.line,
            column: self.column,
        })
    }
}
