// What stands at the front of a text.
ghost use Rattle.std.specs.Prelude.{◌≡◌, ℕ, ◌≤◌, ◌<◌, ◌*◌, ◌+◌, length, nat_eq, take_while, slice_index, EachIndex, position, IsTrue, IfOk, IfSome, SomeIff};
ghost use Rattle.std.specs.List.{starts_with};
ghost use Rattle.std.specs.Char.{is_ascii_digit, digit_value};
ghost use Rattle.std.specs.Str.Parse.{digits_value};
ghost use Rattle.mage_lex.specs.Limits.{NUMBER_LIMIT};
ghost use Rattle.mage_lex.specs.Bytes.{is_blank, is_in_line, is_letter, is_in_word};
ghost use Rattle.mage_lex.specs.Symbols.{symbol_row, symbol_bytes};
ghost use Rattle.mage_lex.specs.Tokens.{front_of, size_of, word_of, number_from, number_of, symbol_of};

use crate::piece::Piece;
use crate::symbols::{SYMBOLS, symbol_text};
use crate::{LangKind, Text, TokenKind};
use mage_base::Memory;
use std::alloc::Global;

// The largest number.
const MOST_NUMBER: u128 = u128::MAX >> 1;

fn is_blank(byte: u8) -> bool
    ensures { result ≡ is_blank byte }
{
    matches!(byte, b' ' | b'\t' | b'\r' | b'\n')
}

fn is_letter(byte: u8) -> bool
    ensures { result ≡ is_letter byte }
{
    byte.is_ascii_alphabetic() || byte == b'_'
}

fn is_in_word(byte: u8) -> bool
    ensures { result ≡ is_in_word byte }
{
    is_letter(byte) || byte.is_ascii_digit()
}

fn line_len(text: &[u8]) -> usize
    ensures { result ≡ length (take_while is_in_line text.now) }
{
    text.iter().take_while(|byte| **byte != b'\n').count()
}

// The bytes before the end of the line.
#[tactic(auto, using(crate::proofs::Fronts::taken_front))]
fn line_at(text: &[u8]) -> &[u8]
    ensures { result.now ≡ take_while is_in_line text.now }
{
    &text[..line_len(text)]
}

fn word_len(text: &[u8]) -> usize
    ensures { result ≡ length (take_while is_in_word text.now) }
{
    text.iter().take_while(|byte| is_in_word(**byte)).count()
}

#[tactic(auto, using(crate::proofs::Fronts::taken_front))]
fn word_at(text: &[u8]) -> &[u8]
    ensures { result.now ≡ take_while is_in_word text.now }
{
    &text[..word_len(text)]
}

fn digits_len(text: &[u8]) -> usize
    ensures { result ≡ length (take_while is_ascii_digit text.now) }
{
    text.iter().take_while(|byte| byte.is_ascii_digit()).count()
}

#[tactic(auto, using(crate::proofs::Fronts::taken_front))]
fn digits_at(text: &[u8]) -> &[u8]
    ensures value { result.now ≡ take_while is_ascii_digit text.now }
    ensures digits { EachIndex result.now
        (λ k. IsTrue (is_ascii_digit (slice_index result.now k))) }
{
    &text[..digits_len(text)]
}

// The word at the front.
fn word(alloc: Global, text: &[u8]) -> Result<Piece, Memory>
    ensures { IfOk result (λ piece. piece ≡ word_of text.now) }
{
    let word = word_at(text);
    Ok(Piece::Lexeme(TokenKind::Word(Text::make(alloc, word)?), word.len()))
}

// The number with one more digit, if it is below the limit.
fn with_digit(value: u128, digit: u8) -> Option<u128>
    requires { IsTrue (is_ascii_digit digit) }
    ensures { let next = value * 10 + digit_value digit in SomeIff result
        (next < NUMBER_LIMIT) next }
{
    let next = value
        .checked_mul(10)?
        .checked_add(u128::from(digit - b'0'))?;
    (next <= MOST_NUMBER).then_some(next)
}

// The number that the digits write, if it is below the limit.
fn value_of(digits: &[u8]) -> Option<u128>
    requires { EachIndex digits.now (λ k. IsTrue (is_ascii_digit (slice_index digits.now k))) }
    ensures { let value = digits_value 10 digits.now in SomeIff result
        (value < NUMBER_LIMIT) value }
{
    let mut value = 0;
    for digit in digits {
        value = with_digit(value, *digit)?;
    }
    Some(value)
}

fn begins_with_letter(text: &[u8]) -> bool
    ensures { result ≡ is_letter (slice_index text.now 0) }
{
    match text.first() {
        Some(byte) => is_letter(*byte),
        None => false,
    }
}

// The number at the front.
fn number(text: &[u8]) -> Piece
    ensures { result ≡ number_of text.now }
{
    let digits = digits_at(text);
    number_from(digits, &text[digits.len()..])
}

fn number_from(digits: &[u8], after: &[u8]) -> Piece
    requires { EachIndex digits.now (λ k. IsTrue (is_ascii_digit (slice_index digits.now k))) }
    ensures { result ≡ number_from digits.now after.now }
{
    if begins_with_letter(after) {
        return Piece::Bad(LangKind::BadNumber);
    }
    match value_of(digits) {
        Some(value) => Piece::Lexeme(TokenKind::Number(value), digits.len()),
        None => Piece::Bad(LangKind::BadNumber),
    }
}

// The first of these symbols that the text begins with.
fn first_symbol(symbols: &[&str], text: &[u8]) -> Option<usize>
    ensures row { result ≡ position (λ symbol. starts_with nat_eq text.now symbol.now) symbols.now }
    ensures within { IfSome result (λ row. row < length symbols.now) }
{
    symbols
        .iter()
        .position(|symbol| text.starts_with(symbol.as_bytes()))
}

#[tactic(auto, unfolding(crate::specs::Symbols::symbol_row))]
fn symbol_row(text: &[u8]) -> Option<u8>
    ensures { result ≡ symbol_row text.now }
{
    Some(first_symbol(&SYMBOLS, text)? as u8)
}

// The symbol at the front.
fn symbol(text: &[u8]) -> Piece
    ensures { result ≡ symbol_of (symbol_row text.now) }
{
    match symbol_row(text) {
        Some(row) => Piece::Lexeme(TokenKind::Symbol(row), symbol_text(row).len()),
        None => Piece::Bad(LangKind::BadByte),
    }
}

// What stands at the front of a text.
#[tactic(auto, unfolding(crate::specs::Tokens::front_of))]
pub fn front(alloc: Global, text: &[u8]) -> Result<Piece, Memory>
    requires { 0 < length text.now }
    ensures piece { IfOk result (λ piece. piece ≡ front_of text.now) }
    ensures size { IfOk result (λ piece. (0 < size_of piece) × (size_of piece ≤ length text.now)) }
{
    let Some((first, _)) = text.split_first() else {
        return Ok(Piece::Gap(0));
    };
    if is_blank(*first) {
        Ok(Piece::Gap(1))
    } else if text.starts_with(b"//") {
        Ok(Piece::Gap(line_at(text).len()))
    } else if is_letter(*first) {
        word(alloc, text)
    } else if first.is_ascii_digit() {
        Ok(number(text))
    } else {
        Ok(symbol(text))
    }
}
