// Which tokens are of a class.
ghost use Rattle.std.specs.Prelude.{◌≡◌};
ghost use Rattle.mage_tree.specs.Classes.{text_of, call_text, is_word, is_call, is_symbol, is_number, is_name, is_type, fits};

use crate::class::{Callable, Class, Keyword};
use mage_lex::{Token, TokenKind, is_name, is_type_word, symbols};

// The keyword's bytes.
#[tactic(auto, unfolding(crate::specs::Classes::text_of))]
fn text_of(word: Keyword) -> &'static [u8]
    ensures { result.now ≡ text_of word }
{
    match word {
        Keyword::Workers => b"workers",
        Keyword::Const => b"const",
        Keyword::Input => b"input",
        Keyword::Garbler => b"garbler",
        Keyword::Evaluator => b"evaluator",
        Keyword::Let => b"let",
        Keyword::Array => b"array",
        Keyword::Move => b"move",
        Keyword::On => b"on",
        Keyword::For => b"for",
        Keyword::In => b"in",
        Keyword::If => b"if",
        Keyword::Else => b"else",
        Keyword::Output => b"output",
        Keyword::Lit => b"lit",
        Keyword::Resize => b"resize",
        Keyword::Mux => b"mux",
    }
}

#[tactic(auto, unfolding(crate::specs::Classes::is_word))]
fn is_word(token: &Token, word: Keyword) -> bool
    ensures { result ≡ is_word word token.now }
{
    match &token.kind {
        TokenKind::Word(text) => text.bytes() == text_of(word),
        _ => false,
    }
}

// The bytes of a call's word.
#[tactic(auto, unfolding(crate::specs::Classes::call_text))]
pub(crate) fn call_text(word: Callable) -> &'static [u8]
    ensures { result.now ≡ call_text word }
{
    match word {
        Callable::Min => b"min",
        Callable::Max => b"max",
        Callable::Count => b"count",
    }
}

#[tactic(auto, unfolding(crate::specs::Classes::is_call))]
fn is_call(token: &Token, word: Callable) -> bool
    ensures { result ≡ is_call word token.now }
{
    match &token.kind {
        TokenKind::Word(text) => text.bytes() == call_text(word),
        _ => false,
    }
}

#[tactic(auto, unfolding(crate::specs::Classes::is_symbol))]
fn is_symbol(token: &Token, row: u8) -> bool
    ensures { result ≡ is_symbol row token.now }
{
    match &token.kind {
        TokenKind::Symbol(other) => *other == row,
        _ => false,
    }
}

#[tactic(auto, unfolding(crate::specs::Classes::is_number))]
fn is_number(token: &Token) -> bool
    ensures { result ≡ is_number token.now }
{
    match &token.kind {
        TokenKind::Number(_) => true,
        _ => false,
    }
}

#[tactic(auto, unfolding(crate::specs::Classes::is_name))]
fn is_name_token(token: &Token) -> bool
    ensures { result ≡ is_name token.now }
{
    match &token.kind {
        TokenKind::Word(text) => is_name(text.bytes()),
        _ => false,
    }
}

#[tactic(auto, unfolding(crate::specs::Classes::is_type))]
fn is_type_token(token: &Token) -> bool
    ensures { result ≡ is_type token.now }
{
    match &token.kind {
        TokenKind::Word(text) => is_type_word(text.bytes()),
        _ => false,
    }
}

/// Whether the token is of the class.
#[tactic(auto, unfolding(crate::specs::Classes::fits))]
pub fn fits(token: &Token, class: Class) -> bool
    ensures { result ≡ fits class token.now }
{
    match class {
        Class::Word(word) => is_word(token, word),
        Class::Symbol(row) => is_symbol(token, row),
        Class::Number => is_number(token),
        Class::Name => is_name_token(token),
        Class::Type => is_type_token(token),
        Class::Party => is_word(token, Keyword::Garbler) || is_word(token, Keyword::Evaluator),
        Class::Choosing => is_call(token, Callable::Min) || is_call(token, Callable::Max),
        Class::Counting => is_call(token, Callable::Count),
        Class::Adding => is_symbol(token, symbols::PLUS) || is_symbol(token, symbols::MINUS),
        Class::Scaling => {
            is_symbol(token, symbols::TIMES)
                || is_symbol(token, symbols::DIVIDE)
                || is_symbol(token, symbols::REMAINDER)
        }
        Class::Shifting => {
            is_symbol(token, symbols::SHIFT_LEFT) || is_symbol(token, symbols::SHIFT_RIGHT)
        }
        Class::Comparing => is_symbol(token, symbols::EQUALS) || is_symbol(token, symbols::LESS),
    }
}
