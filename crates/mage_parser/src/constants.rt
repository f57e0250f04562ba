// Reading constants.
ghost use Rattle.std.specs.Prelude.{◌≡◌, ◌≤◌, ℕ, List, Result, length, IfOk};
ghost use Rattle.mage_parser.specs.Reads.{Gives, operands};
ghost use Rattle.mage_parser.specs.Constants.{const_rank, const_atom, const_unary, const_chain_of, const_chain, const_in, const_at};

use crate::front::{after_one, begins, one};
use crate::level::ConstLevel;
use crate::stop::Stop;
use mage_lex::{Token, symbols};
use mage_tree::{Class, ConstExpr};
use sqlite_items::{Boxed, Items};
use std::alloc::Global;

// A number, a name, or a constant in brackets.
#[cycle(constants)]
#[tactic(auto, unfolding(crate::specs::Constants::const_atom))]
fn const_atom(
    alloc: Global,
    tokens: &[Token],
    room: u32,
) -> Result<(Boxed<ConstExpr>, &[Token]), Stop>
    ensures { Gives (λ x. (x.0, x.1.now)) result (const_atom (const_in room) tokens.now) }
{
    if begins(tokens, Class::Number) {
        let (number, rest) = one(tokens, Class::Number)?;
        return Ok((Boxed::new(alloc, ConstExpr::Number(number))?, rest));
    }
    if begins(tokens, Class::Name) {
        let (name, rest) = one(tokens, Class::Name)?;
        return Ok((Boxed::new(alloc, ConstExpr::Name(name))?, rest));
    }
    let (bracket, _) = one(tokens, Class::Symbol(symbols::OPEN_PAREN))?;
    let (inner, rest) = const_in(alloc, tokens, ConstLevel::Sum, room)?;
    let rest = after_one(rest, Class::Symbol(symbols::CLOSE_PAREN))?;
    Ok((
        Boxed::new(alloc, ConstExpr::Paren { bracket, inner })?,
        rest,
    ))
}

// A sign and its operand, or an atom.
#[cycle(constants)]
#[tactic(auto, unfolding(crate::specs::Constants::const_unary))]
fn const_unary(
    alloc: Global,
    tokens: &[Token],
    room: u32,
) -> Result<(Boxed<ConstExpr>, &[Token]), Stop>
    ensures { Gives (λ x. (x.0, x.1.now)) result (const_unary (const_in room) tokens.now) }
{
    if begins(tokens, Class::Symbol(symbols::MINUS)) {
        let (op, _) = one(tokens, Class::Symbol(symbols::MINUS))?;
        let (of, rest) = const_in(alloc, tokens, ConstLevel::Unary, room)?;
        Ok((Boxed::new(alloc, ConstExpr::Minus { op, of })?, rest))
    } else {
        const_atom(alloc, tokens, room)
    }
}

// What stands behind the first token, a bracket or a sign.
#[cycle(constants)]
#[tactic(auto, unfolding(crate::specs::Constants::const_in, crate::specs::Constants::const_at))]
pub fn const_in(
    alloc: Global,
    tokens: &[Token],
    level: ConstLevel,
    room: u32,
) -> Result<(Boxed<ConstExpr>, &[Token]), Stop>
    ensures { Gives (λ x. (x.0, x.1.now)) result (const_in room (const_rank level) tokens.now) }
{
    if room == 0 {
        return Err(Stop::TooDeep(tokens.len()));
    }
    match tokens.split_first() {
        Some((_, rest)) => const_at(alloc, rest, level, room - 1),
        None => const_at(alloc, tokens, level, room - 1),
    }
}

// Operators and their operands, as long as there are any.
#[cycle(constants)]
#[tactic(auto, unfolding(crate::specs::Reads::operands))]
pub fn const_operands(
    alloc: Global,
    tokens: &[Token],
    operand: ConstLevel,
    operators: Class,
    room: u32,
) -> Result<(Items<(Token, ConstExpr)>, &[Token]), Stop>
    ensures { Gives (λ x. (x.0, x.1.now)) result
        (operands (const_at room (const_rank operand)) operators (length tokens.now) tokens.now) }
{
    let mut operands = Items::new(alloc);
    let mut left = tokens;
    for _turn in 0..tokens.len() {
        if !begins(left, operators) {
            break;
        }
        let (op, rest) = one(left, operators)?;
        let (value, rest) = const_at(alloc, rest, operand, room)?;
        operands.push((op, value.into_inner()))?;
        left = rest;
    }
    Ok((operands, left))
}

// An operand alone, or a chain.
fn const_chain_of(
    alloc: Global,
    first: Boxed<ConstExpr>,
    rest: Items<(Token, ConstExpr)>,
) -> Result<Boxed<ConstExpr>, Stop>
    ensures { Gives (λ x. x) result (Ok (const_chain_of first rest)) }
{
    if rest.is_empty() {
        Ok(first)
    } else {
        Ok(Boxed::new(alloc, ConstExpr::Chain { first, rest })?)
    }
}

// One level of operators.
#[cycle(constants)]
#[tactic(auto, unfolding(crate::specs::Constants::const_chain))]
fn const_chain(
    alloc: Global,
    tokens: &[Token],
    operand: ConstLevel,
    operators: Class,
    room: u32,
) -> Result<(Boxed<ConstExpr>, &[Token]), Stop>
    ensures { Gives (λ x. (x.0, x.1.now)) result
        (const_chain (const_at room (const_rank operand)) operators tokens.now) }
{
    let (first, left) = const_at(alloc, tokens, operand, room)?;
    let (rest, left) = const_operands(alloc, left, operand, operators, room)?;
    Ok((const_chain_of(alloc, first, rest)?, left))
}

// A constant of this level, with room for so many brackets and signs.
#[cycle(constants)]
#[tactic(auto, unfolding(crate::specs::Constants::const_at, crate::specs::Constants::const_from))]
pub fn const_at(
    alloc: Global,
    tokens: &[Token],
    level: ConstLevel,
    room: u32,
) -> Result<(Boxed<ConstExpr>, &[Token]), Stop>
    ensures { Gives (λ x. (x.0, x.1.now)) result (const_at room (const_rank level) tokens.now) }
{
    match level {
        ConstLevel::Atom => const_atom(alloc, tokens, room),
        ConstLevel::Unary => const_unary(alloc, tokens, room),
        ConstLevel::Product => const_chain(alloc, tokens, ConstLevel::Unary, Class::Scaling, room),
        ConstLevel::Sum => const_chain(alloc, tokens, ConstLevel::Product, Class::Adding, room),
    }
}
