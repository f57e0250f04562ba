// Reading statements that have blocks, and lists of statements.
ghost use Rattle.std.specs.Prelude.{◌≡◌, ◌≤◌, ℕ, List, [], ◌∷◌, Option, Some, Result, Ok, length};
ghost use Rattle.mage_parser.specs.Reads.{Gives};
ghost use Rattle.mage_parser.specs.Statements.{block_at, on_at, for_at, else_at, choice_at, stmt_at, are_over, stmts_in, stmts_at, stmts_from};

use crate::constants::const_at;
use crate::front::{after_one, begins, one};
use crate::level::ConstLevel;
use crate::statements::{array_at, assign_at, constant_at, input_at, let_at, move_at, output_at};
use crate::stop::Stop;
use mage_lex::{Token, symbols};
use mage_tree::{Class, Keyword, Stmt};
use sqlite_items::Items;
use std::alloc::Global;

#[cycle(blocks)]
#[tactic(auto, unfolding(crate::specs::Statements::block_at))]
fn block_at(alloc: Global, tokens: &[Token], room: u32) -> Result<(Items<Stmt>, &[Token]), Stop>
    ensures { Gives (λ x. (x.0, x.1.now)) result (block_at (stmts_in room) tokens.now) }
{
    after_one(tokens, Class::Symbol(symbols::OPEN_BRACE))?;
    let (body, rest) = stmts_in(alloc, tokens, room)?;
    let rest = after_one(rest, Class::Symbol(symbols::CLOSE_BRACE))?;
    Ok((body, rest))
}

#[cycle(blocks)]
#[tactic(auto, unfolding(crate::specs::Statements::on_at))]
fn on_at(alloc: Global, tokens: &[Token], room: u32) -> Result<(Stmt, &[Token]), Stop>
    ensures { Gives (λ x. (x.0, x.1.now)) result (on_at (stmts_in room) room tokens.now) }
{
    let (word, rest) = one(tokens, Class::Word(Keyword::On))?;
    let (worker, rest) = const_at(alloc, rest, ConstLevel::Sum, room)?;
    let (body, rest) = block_at(alloc, rest, room)?;
    let worker = worker.into_inner();
    Ok((Stmt::On { word, worker, body }, rest))
}

#[cycle(blocks)]
#[tactic(auto, unfolding(crate::specs::Statements::for_at))]
fn for_at(alloc: Global, tokens: &[Token], room: u32) -> Result<(Stmt, &[Token]), Stop>
    ensures { Gives (λ x. (x.0, x.1.now)) result (for_at (stmts_in room) room tokens.now) }
{
    let (word, rest) = one(tokens, Class::Word(Keyword::For))?;
    let (name, rest) = one(rest, Class::Name)?;
    let rest = after_one(rest, Class::Word(Keyword::In))?;
    let (from, rest) = const_at(alloc, rest, ConstLevel::Sum, room)?;
    let rest = after_one(rest, Class::Symbol(symbols::DOTS))?;
    let (to, rest) = const_at(alloc, rest, ConstLevel::Sum, room)?;
    let (body, rest) = block_at(alloc, rest, room)?;
    Ok((
        Stmt::For {
            word,
            name,
            from: from.into_inner(),
            to: to.into_inner(),
            body,
        },
        rest,
    ))
}

// The block after `else`, where there is one.
#[cycle(blocks)]
#[tactic(auto, unfolding(crate::specs::Statements::else_at))]
fn else_at(
    alloc: Global,
    tokens: &[Token],
    room: u32,
) -> Result<(Option<Items<Stmt>>, &[Token]), Stop>
    ensures { Gives (λ x. (x.0, x.1.now)) result (else_at (stmts_in room) tokens.now) }
{
    if begins(tokens, Class::Word(Keyword::Else)) {
        let rest = after_one(tokens, Class::Word(Keyword::Else))?;
        let (body, rest) = block_at(alloc, rest, room)?;
        Ok((Some(body), rest))
    } else {
        Ok((None, tokens))
    }
}

#[cycle(blocks)]
#[tactic(auto, unfolding(crate::specs::Statements::choice_at))]
fn choice_at(alloc: Global, tokens: &[Token], room: u32) -> Result<(Stmt, &[Token]), Stop>
    ensures { Gives (λ x. (x.0, x.1.now)) result (choice_at (stmts_in room) room tokens.now) }
{
    let (word, rest) = one(tokens, Class::Word(Keyword::If))?;
    let (left, rest) = const_at(alloc, rest, ConstLevel::Sum, room)?;
    let (op, rest) = one(rest, Class::Comparing)?;
    let (right, rest) = const_at(alloc, rest, ConstLevel::Sum, room)?;
    let (yes, rest) = block_at(alloc, rest, room)?;
    let (no, rest) = else_at(alloc, rest, room)?;
    Ok((
        Stmt::If {
            word,
            left: left.into_inner(),
            op,
            right: right.into_inner(),
            yes,
            no,
        },
        rest,
    ))
}

// A statement: what it is, is seen from its first token.
#[cycle(blocks)]
#[tactic(auto, unfolding(crate::specs::Statements::stmt_at, crate::specs::Statements::stmt_from))]
fn stmt_at(alloc: Global, tokens: &[Token], room: u32) -> Result<(Stmt, &[Token]), Stop>
    ensures { Gives (λ x. (x.0, x.1.now)) result (stmt_at room tokens.now) }
{
    if begins(tokens, Class::Word(Keyword::Const)) {
        constant_at(alloc, tokens, room)
    } else if begins(tokens, Class::Word(Keyword::Input)) {
        input_at(alloc, tokens, room)
    } else if begins(tokens, Class::Word(Keyword::Let)) {
        let_at(alloc, tokens, room)
    } else if begins(tokens, Class::Word(Keyword::Array)) {
        array_at(alloc, tokens, room)
    } else if begins(tokens, Class::Word(Keyword::Move)) {
        move_at(alloc, tokens, room)
    } else if begins(tokens, Class::Word(Keyword::On)) {
        on_at(alloc, tokens, room)
    } else if begins(tokens, Class::Word(Keyword::For)) {
        for_at(alloc, tokens, room)
    } else if begins(tokens, Class::Word(Keyword::If)) {
        choice_at(alloc, tokens, room)
    } else if begins(tokens, Class::Word(Keyword::Output)) {
        output_at(alloc, tokens, room)
    } else {
        assign_at(alloc, tokens, room)
    }
}

// Whether no statement follows: at a `}` or the end.
fn are_over(tokens: &[Token]) -> bool
    ensures { result ≡ are_over tokens.now }
{
    tokens.is_empty() || begins(tokens, Class::Symbol(symbols::CLOSE_BRACE))
}

// The statements behind the first token, a bracket.
#[cycle(blocks)]
#[tactic(auto, unfolding(crate::specs::Statements::stmts_in, crate::specs::Statements::stmts_at, crate::specs::Statements::stmt_at))]
fn stmts_in(alloc: Global, tokens: &[Token], room: u32) -> Result<(Items<Stmt>, &[Token]), Stop>
    ensures { Gives (λ x. (x.0, x.1.now)) result (stmts_in room tokens.now) }
{
    if room == 0 {
        return Err(Stop::TooDeep(tokens.len()));
    }
    match tokens.split_first() {
        Some((_, rest)) => stmts_at(alloc, rest, room - 1),
        None => stmts_at(alloc, tokens, room - 1),
    }
}

// The statements up to a `}` or the end.
#[cycle(blocks)]
#[tactic(auto, unfolding(crate::specs::Statements::stmts_at, crate::specs::Statements::stmts_from))]
pub fn stmts_at(alloc: Global, tokens: &[Token], room: u32) -> Result<(Items<Stmt>, &[Token]), Stop>
    ensures { Gives (λ x. (x.0, x.1.now)) result (stmts_at room tokens.now) }
{
    let mut stmts = Items::new(alloc);
    let mut left = tokens;
    for _turn in 0..tokens.len() {
        if are_over(left) {
            break;
        }
        let (stmt, rest) = stmt_at(alloc, left, room)?;
        stmts.push(stmt)?;
        left = rest;
    }
    Ok((stmts, left))
}
