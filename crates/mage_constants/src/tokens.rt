// What tokens hold.
ghost use Rattle.std.specs.Prelude.{◌≡◌};
ghost use Rattle.mage_constants.specs.Tokens.{row_of, number_of};

use mage_lex::{Token, TokenKind};

/// The row of a symbol; of another token 0.
pub fn row_of(token: &Token) -> u8
    ensures { result ≡ row_of token.now }
{
    match &token.kind {
        TokenKind::Symbol(row) => *row,
        TokenKind::Word(_) | TokenKind::Number(_) => 0,
    }
}

/// The value of a number; of another token 0.
pub fn number_of(token: &Token) -> u128
    ensures { result ≡ number_of token.now }
{
    match &token.kind {
        TokenKind::Number(value) => *value,
        TokenKind::Word(_) | TokenKind::Symbol(_) => 0,
    }
}
