// Reading a whole source.
ghost use Rattle.std.specs.Prelude.{◌≡◌, ◌≤◌, ◌<◌, ◌^◌, ℕ, List, Option, Result, Ok, length, IfOk, IfErr, IsErrAnd};
ghost use Rattle.mage_lex.specs.Places.{line_after, column_after};
ghost use Rattle.mage_lex.specs.Tokens.{tokens_of};
ghost use Rattle.mage_parser.specs.Reads.{Gives};
ghost use Rattle.mage_lex.specs.declared.token.Token.{Token as TokenValue};
ghost use Rattle.mage_tree.specs.declared.tree.Stmt.{Stmt as StmtValue};
ghost use Rattle.mage_lex.specs.Limits.{MOST_BYTES};
ghost use Rattle.mage_tree.specs.Sources.{MOST_DEPTH as most_depth, IsSource};
ghost use Rattle.mage_parser.specs.Statements.{workers_at, at_end, source_at};
ghost use Rattle.mage_parser.specs.Faults.{last_of, fault_of, parsed, IsFaultOf};
ghost use Rattle.mage_tree.specs.FirstFault.{fault_at, IsFirstFault, IsFirstFaultOf, IsThisOrMemory};

use crate::blocks::stmts_at;
use crate::front::{after_one, begins, one};
use crate::stop::Stop;
use mage_lex::{LangFault, LangKind, Token, symbols};
use mage_tree::{Class, Keyword, Source, Stmt};
use sqlite_items::Items;
use std::alloc::Global;

// The most brackets and signs that may be open at once.
const MOST_DEPTH: u32 = 100;

// The number of workers, where it is given.
#[tactic(auto, unfolding(crate::specs::Statements::workers_at))]
fn workers_at(tokens: &[Token]) -> Result<(Option<Token>, &[Token]), Stop>
    ensures { Gives (λ x. (x.0, x.1.now)) result (workers_at tokens.now) }
{
    if begins(tokens, Class::Word(Keyword::Workers)) {
        let rest = after_one(tokens, Class::Word(Keyword::Workers))?;
        let (number, rest) = one(rest, Class::Number)?;
        let rest = after_one(rest, Class::Symbol(symbols::SEMICOLON))?;
        Ok((Some(number), rest))
    } else {
        Ok((None, tokens))
    }
}

// Nothing may follow.
#[tactic(auto, unfolding(crate::specs::Statements::at_end))]
fn at_end(tokens: &[Token]) -> Result<(), Stop>
    ensures { Gives (λ x. tt) result (at_end tokens.now) }
{
    match tokens.split_first() {
        Some(_) => Err(Stop::Syntax(tokens.len())),
        None => Ok(()),
    }
}

// A whole source, with room for so many brackets and signs.
#[tactic(auto, unfolding(crate::specs::Statements::source_at))]
fn source_at(
    alloc: Global,
    tokens: &[Token],
    room: u32,
) -> Result<(Option<Token>, Items<Stmt>), Stop>
    ensures { Gives (λ x. (x.0, x.1)) result (source_at room tokens.now) }
{
    let (workers, rest) = workers_at(tokens)?;
    let (body, rest) = stmts_at(alloc, rest, room)?;
    at_end(rest)?;
    Ok((workers, body))
}

// The line just after the last byte.
#[tactic(auto, unfolding(mage_lex::specs::Places::line_after))]
fn end_line(text: &[u8]) -> u32
    requires { length text.now ≤ MOST_BYTES }
    ensures { result ≡ line_after text.now }
{
    1 + text.iter().filter(|byte| **byte == b'\n').count() as u32
}

// Its column.
fn end_column(text: &[u8]) -> u32
    requires { length text.now ≤ MOST_BYTES }
    ensures { result ≡ column_after text.now }
{
    let mut column = 1;
    for byte in text {
        column = if *byte == b'\n' { 1 } else { column + 1 };
    }
    column
}

// The fault of this kind, where so many tokens are left.
fn fault_at(text: &[u8], tokens: &[Token], kind: LangKind, left: usize) -> LangFault
    requires { length text.now ≤ MOST_BYTES }
    ensures { result ≡ fault_at kind text.now (last_of tokens.now left) }
{
    let index = tokens.len().saturating_sub(left);
    match tokens[index..].first() {
        Some(token) => LangFault::At {
            kind,
            line: token.line,
            column: token.column,
        },
        None => LangFault::At {
            kind,
            line: end_line(text),
            column: end_column(text),
        },
    }
}

// The fault where reading stops.
fn fault_of(text: &[u8], tokens: &[Token], stop: Stop) -> LangFault
    requires { length text.now ≤ MOST_BYTES }
    ensures { result ≡ fault_of text.now tokens.now stop }
{
    match stop {
        Stop::Syntax(left) => fault_at(text, tokens, LangKind::Syntax, left),
        Stop::TooDeep(left) => fault_at(text, tokens, LangKind::TooDeep, left),
        Stop::Memory => LangFault::Memory,
    }
}

/// The tree of the tokens of a text. The tokens are those that `lex` gives of it.
///
/// `Syntax` at the first token with which no source of the grammar goes on, or just after the last
/// byte where the tokens end too early; `TooDeep` at the token at which more than 100 brackets and
/// signs are open at once; and `Memory` where there is none for the tree.
#[tactic(auto, using(crate::proofs::Lexed::lexed_short, crate::proofs::Answered::found, crate::proofs::Answered::found_some, crate::proofs::Answered::refused), unfolding(crate::specs::Faults::parsed))]
pub fn parse(alloc: Global, text: &[u8], tokens: &[Token]) -> Result<Source, LangFault>
    requires { tokens_of text.now ≡ Ok tokens.now }
    // What is read is the tree of the tokens.
    ensures tree { IfOk result
        (λ source. IsSource most_depth source.workers source.body tokens.now) }
    // What is read is just what reading gives.
    ensures exact { IfOk result (λ source. parsed text.now tokens.now
        ≡ Ok (source.workers, source.body)) }
    // What is a source is read, unless memory runs out.
    ensures only { (workers : Option TokenValue) (body : List StmtValue) →
        IsSource most_depth workers body tokens.now →
        IfErr result (λ fault. fault ≡ LangFault.Memory) }
    // Where reading stops, if it does.
    ensures fault { IfErr result (IsFaultOf (parsed text.now tokens.now)) }
    // That is the first fault of the tokens, by the grammar and their depths alone.
    ensures first { IfErr result (IsFirstFaultOf text.now tokens.now) }
    // Where the tokens have a first fault, it is answered, unless memory runs out.
    ensures refuses { (kind : LangKind) (back : List TokenValue) →
        IsFirstFault kind tokens.now back →
        IsErrAnd result (IsThisOrMemory (fault_at kind text.now back)) }
{
    match source_at(alloc, tokens, MOST_DEPTH) {
        Ok((workers, body)) => Ok(Source::from_parts(workers, body)),
        Err(stop) => Err(fault_of(text, tokens, stop)),
    }
}
