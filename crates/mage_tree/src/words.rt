// Words, and the types that they name.
ghost use Rattle.std.specs.Prelude.{◌≡◌, ◌≤◌, IfSome};
ghost use Rattle.mage_tree.specs.Words.{MOST_WIDTH as most_width, bytes_of, callable_of, width_of_type};

use crate::class::Callable;
use crate::membership::call_text;
use mage_lex::{Token, TokenKind};

// The greatest width of a value.
const MOST_WIDTH: u8 = 128;

/// The bytes of a word; a number and a symbol have none here.
pub fn bytes_of(token: &Token) -> &[u8]
    ensures { result.now ≡ bytes_of token.now }
{
    match &token.kind {
        TokenKind::Word(text) => text.bytes(),
        TokenKind::Number(_) | TokenKind::Symbol(_) => &[],
    }
}

/// The call that the word makes, where it is `min`, `max` or `count`.
#[tactic(auto, unfolding(crate::specs::Words::callable_of))]
pub fn callable_of(word: &[u8]) -> Option<Callable>
    ensures { result ≡ callable_of word.now }
{
    if word == call_text(Callable::Min) {
        Some(Callable::Min)
    } else if word == call_text(Callable::Max) {
        Some(Callable::Max)
    } else if word == call_text(Callable::Count) {
        Some(Callable::Count)
    } else {
        None
    }
}

/// The width of a type, where it is one of `u1` to `u128`, so spelled.
pub fn width_of_type(word: &[u8]) -> Option<u8>
    ensures width { result ≡ width_of_type word.now }
    ensures in_range { IfSome result (λ width. (1 ≤ width) × (width ≤ most_width)) }
{
    match word {
        [b'u', ones @ b'1'..=b'9'] => Some(*ones - b'0'),
        [b'u', tens @ b'1'..=b'9', ones @ b'0'..=b'9'] => {
            Some(10 * (*tens - b'0') + (*ones - b'0'))
        }
        [b'u', b'1', tens @ b'0'..=b'9', ones @ b'0'..=b'9'] => {
            let width = 100 + 10 * (*tens - b'0') + (*ones - b'0');
            (width <= MOST_WIDTH).then_some(width)
        }
        _ => None,
    }
}
