// The tokens of a text.
ghost use Rattle.std.specs.Prelude.{◌≡◌, ◌≤◌, ◌<◌, ◌+◌, ◌^◌, ◌↔◌, List, Result, All, length, IfOk, IfErr, OnOk, IsErrOf};
ghost use Rattle.mage_lex.specs.declared.token.Token.{Token};
ghost use Rattle.mage_lex.specs.declared.fault.LangFault.{LangFault};
ghost use Rattle.mage_lex.specs.Limits.{MOST_BYTES as most_bytes};
ghost use Rattle.mage_lex.specs.Places.{place_at};
ghost use Rattle.mage_lex.specs.Tokens.{size_of, in_front, token_at, fault_at, piece_in_front, tokens_from, tokens_of, IsFaultOf};
ghost use Rattle.mage_lex.specs.Laws.{IsSpelled, InOrder, GapsBetween};

use crate::front::front;
use crate::piece::{Piece, Place};
use crate::place::moved;
use crate::{LangFault, LangKind, Token, TokenKind};
use std::alloc::Global;

/// The most bytes that a text may have.
pub const MOST_BYTES: usize = 1_048_576;

/// The tokens of a text, in order.
///
/// `TooLong` at 0:0 where the text has more than 1,048,576 bytes; else the first `BadByte` or
/// `BadNumber` where the text has one, with its line and column; and `Memory` where there is none
/// for the tokens.
#[tactic(auto, unfolding(crate::specs::Tokens::tokens_of))]
pub fn lex(alloc: Global, text: &[u8]) -> Result<Vec<Token>, LangFault>
    ensures tokens { IfOk result (λ tokens. tokens_of text.now ≡ Ok tokens.items) }
    ensures fault { IfErr result (IsFaultOf (tokens_of text.now)) }
    ensures too_long { IsErrOf result
        (LangFault.At LangKind.TooLong 0 0) ↔ (most_bytes < length text.now) }

    // Each token is the bytes at its place, no two of them overlap, and between them are white
    // space and comments.
    ensures spelled { IfOk result (λ tokens. All (IsSpelled text.now) tokens.items) }
    ensures order { IfOk result (λ tokens. InOrder 0 tokens.items (length text.now)) }
    ensures gaps { IfOk result (λ tokens. GapsBetween text.now 0 tokens.items) }
{
    if text.len() > MOST_BYTES {
        return Err(LangFault::At {
            kind: LangKind::TooLong,
            line: 0,
            column: 0,
        });
    }
    let mut tokens = Vec::new(alloc);
    let mut place = Place {
        start: 0,
        line: 1,
        column: 1,
    };
    while place.start < text.len() {
        place = read_piece(alloc, text, place, &mut tokens)?;
    }
    Ok(tokens)
}

// Reads the piece at this place, and answers the place after it.
fn read_piece(
    alloc: Global,
    text: &[u8],
    place: Place,
    tokens: &mut Vec<Token>,
) -> Result<Place, LangFault>
    requires place { place ≡ place_at text.now place.start }
    requires within { place.start < length text.now }
    requires short { length text.now ≤ most_bytes }
    ensures place { IfOk result (λ next. next ≡ place_at text.now next.start) }
    ensures forward { IfOk result (λ next. place.start < next.start) }
    ensures within { IfOk result (λ next. next.start ≤ length text.now) }
    ensures tokens { IfOk result
        (λ next. in_front tokens.new.items (tokens_from text.now next.start)
        ≡ in_front tokens.old.items (tokens_from text.now place.start)) }
    ensures fault { IfErr result (IsFaultOf (tokens_from text.now place.start)) }
{
    let piece = front(alloc, &text[place.start..])?;
    let size = take_piece(tokens, place, piece)?;
    Ok(moved(text, place, size))
}

// Keeps the token of the piece at this place, and answers the size of the piece.
fn take_piece(tokens: &mut Vec<Token>, place: Place, piece: Piece) -> Result<usize, LangFault>
    requires start { place.start < 2 ^ 32 }
    requires size { size_of piece < 2 ^ 32 }
    ensures size { IfOk result (λ size. size ≡ size_of piece) }
    ensures tokens { OnOk result ((others : Result (List Token) LangFault) →
        in_front tokens.new.items others
        ≡ in_front tokens.old.items (piece_in_front place piece others)) }
    ensures fault { IfErr result (λ fault. (others : Result (List Token) LangFault) →
        IsFaultOf (piece_in_front place piece others) fault) }
{
    match piece {
        Piece::Gap(size) => Ok(size),
        Piece::Lexeme(kind, size) => {
            tokens.push(token_at(place, kind, size))?;
            Ok(size)
        }
        Piece::Bad(kind) => Err(fault_at(place, kind)),
    }
}

fn token_at(place: Place, kind: TokenKind, size: usize) -> Token
    requires start { place.start < 2 ^ 32 }
    requires size { size < 2 ^ 32 }
    ensures { result ≡ token_at place kind size }
{
    Token {
        kind,
        start: place.start as u32,
        len: size as u32,
        line: place.line,
        column: place.column,
    }
}

fn fault_at(place: Place, kind: LangKind) -> LangFault
    ensures { result ≡ fault_at place kind }
{
    LangFault::At {
        kind,
        line: place.line,
        column: place.column,
    }
}
