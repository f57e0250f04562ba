// The text of one token.
ghost use Rattle.std.specs.Prelude.{◌≡◌, ◌++◌, ◌∷◌, [], OnOk};
ghost use Rattle.std.specs.Fmt.{decimal};
ghost use Rattle.mage_lex.specs.declared.token.TokenKind.{TokenKind};
ghost use Rattle.mage_printer.specs.Printed.{spelling, separator, written};

use mage_base::Memory;
use mage_lex::symbols::symbol_text;
use mage_lex::{Token, TokenKind, symbols};

// Adds the number in decimal digits.
fn add_number(text: &mut Vec<u8>, value: u128) -> Result<(), Memory>
    ensures { OnOk result (text.new.items ≡ text.old.items ++ decimal value) }
{
    let digits = value.to_string(*text.allocator())?;
    text.extend_from_slice(digits.as_bytes())?;
    Ok(())
}

fn add_spelling(text: &mut Vec<u8>, kind: &TokenKind) -> Result<(), Memory>
    ensures { OnOk result (text.new.items ≡ text.old.items ++ spelling kind.now) }
{
    match kind {
        TokenKind::Word(word) => {
            text.extend_from_slice(word.bytes())?;
            Ok(())
        }
        TokenKind::Number(value) => add_number(text, *value),
        TokenKind::Symbol(row) => {
            text.extend_from_slice(symbol_text(*row).as_bytes())?;
            Ok(())
        }
    }
}

// The byte behind a token of this kind.
fn separator(kind: &TokenKind) -> u8
    ensures { result ≡ separator kind.now }
{
    match kind {
        TokenKind::Symbol(row) => {
            if *row == symbols::SEMICOLON
                || *row == symbols::OPEN_BRACE
                || *row == symbols::CLOSE_BRACE
            {
                b'\n'
            } else {
                b' '
            }
        }
        TokenKind::Word(_) | TokenKind::Number(_) => b' ',
    }
}

// Adds a token of this kind, and the byte behind it.
#[tactic(auto, unfolding(crate::specs::Printed::written))]
pub fn add_kind(text: &mut Vec<u8>, kind: &TokenKind) -> Result<(), Memory>
    ensures { OnOk result (text.new.items ≡ text.old.items ++ written kind.now) }
{
    add_spelling(text, kind)?;
    text.push(separator(kind))?;
    Ok(())
}

// Adds a token.
pub fn add(text: &mut Vec<u8>, token: &Token) -> Result<(), Memory>
    ensures { OnOk result (text.new.items ≡ text.old.items ++ written token.now.kind) }
{
    add_kind(text, &token.kind)
}

// Adds the symbol of this row.
pub fn add_symbol(text: &mut Vec<u8>, row: u8) -> Result<(), Memory>
    ensures { OnOk result (text.new.items ≡ text.old.items ++ written (TokenKind.Symbol row)) }
{
    add_kind(text, &TokenKind::Symbol(row))
}

// Adds a word.
#[tactic(auto, unfolding(crate::specs::Printed::written))]
pub fn add_word(text: &mut Vec<u8>, word: &[u8]) -> Result<(), Memory>
    ensures { OnOk result (text.new.items ≡ text.old.items ++ written (TokenKind.Word word.now)) }
{
    text.extend_from_slice(word)?;
    text.push(b' ')?;
    Ok(())
}
