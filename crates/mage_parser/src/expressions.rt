// Reading expressions.
ghost use Rattle.std.specs.Prelude.{◌≡◌, ◌≤◌, ℕ, List, [], ◌∷◌, Option, Some, Result, Ok, length};
ghost use Rattle.mage_parser.specs.Reads.{Gives, operands};
ghost use Rattle.mage_parser.specs.Constants.{const_in, const_at};
ghost use Rattle.mage_parser.specs.Expressions.{rank, bracketed, index_at, item_at, lit_at, resize_at, mux_at, paren_at, not_at, place_at, choose_at, count_at, name_at, unary_at, chain_of, shift_of, chain_at, shift_at, compare_from, compare_at, expr_in, expr_at};

use crate::constants::{const_at, const_in, const_operands};
use crate::front::{after_one, begins, calls, one};
use crate::level::{ConstLevel, Level};
use crate::stop::Stop;
use mage_lex::{Token, symbols};
use mage_tree::{Class, ConstExpr, Expr, Item, Keyword};
use sqlite_items::{Boxed, Items};
use std::alloc::Global;

// An index or a length in its brackets.
#[tactic(auto, unfolding(crate::specs::Expressions::bracketed))]
pub fn bracketed(
    alloc: Global,
    tokens: &[Token],
    room: u32,
) -> Result<((Token, Boxed<ConstExpr>), &[Token]), Stop>
    ensures { Gives (λ x. (x.0, x.1.now)) result (bracketed room tokens.now) }
{
    let (bracket, _) = one(tokens, Class::Symbol(symbols::OPEN_BRACKET))?;
    let (value, rest) = const_in(alloc, tokens, ConstLevel::Sum, room)?;
    let rest = after_one(rest, Class::Symbol(symbols::CLOSE_BRACKET))?;
    Ok(((bracket, value), rest))
}

// An index or a length, where there is one.
#[tactic(auto, unfolding(crate::specs::Expressions::index_at))]
pub fn index_at(
    alloc: Global,
    tokens: &[Token],
    room: u32,
) -> Result<(Option<(Token, ConstExpr)>, &[Token]), Stop>
    ensures { Gives (λ x. (x.0, x.1.now)) result (index_at room tokens.now) }
{
    if begins(tokens, Class::Symbol(symbols::OPEN_BRACKET)) {
        let ((bracket, value), rest) = bracketed(alloc, tokens, room)?;
        Ok((Some((bracket, value.into_inner())), rest))
    } else {
        Ok((None, tokens))
    }
}

// A place.
#[tactic(auto, unfolding(crate::specs::Expressions::item_at))]
pub fn item_at(alloc: Global, tokens: &[Token], room: u32) -> Result<(Boxed<Item>, &[Token]), Stop>
    ensures { Gives (λ x. (x.0, x.1.now)) result (item_at room tokens.now) }
{
    let (name, rest) = one(tokens, Class::Name)?;
    let (index, rest) = index_at(alloc, rest, room)?;
    Ok((Boxed::new(alloc, Item { name, index })?, rest))
}

#[tactic(auto, unfolding(crate::specs::Expressions::place_at))]
fn place_at(alloc: Global, tokens: &[Token], room: u32) -> Result<(Boxed<Expr>, &[Token]), Stop>
    ensures { Gives (λ x. (x.0, x.1.now)) result (place_at room tokens.now) }
{
    let (item, rest) = item_at(alloc, tokens, room)?;
    Ok((Boxed::new(alloc, Expr::Item(item.into_inner()))?, rest))
}

#[tactic(auto, unfolding(crate::specs::Expressions::lit_at))]
fn lit_at(alloc: Global, tokens: &[Token], room: u32) -> Result<(Boxed<Expr>, &[Token]), Stop>
    ensures { Gives (λ x. (x.0, x.1.now)) result (lit_at room tokens.now) }
{
    let (word, rest) = one(tokens, Class::Word(Keyword::Lit))?;
    let (ty, rest) = one(rest, Class::Type)?;
    after_one(rest, Class::Symbol(symbols::OPEN_PAREN))?;
    let (value, rest) = const_in(alloc, rest, ConstLevel::Sum, room)?;
    let rest = after_one(rest, Class::Symbol(symbols::CLOSE_PAREN))?;
    let value = value.into_inner();
    Ok((Boxed::new(alloc, Expr::Lit { word, ty, value })?, rest))
}

#[cycle(expressions)]
#[tactic(auto, unfolding(crate::specs::Expressions::resize_at))]
fn resize_at(alloc: Global, tokens: &[Token], room: u32) -> Result<(Boxed<Expr>, &[Token]), Stop>
    ensures { Gives (λ x. (x.0, x.1.now)) result (resize_at (expr_in room) tokens.now) }
{
    let (word, rest) = one(tokens, Class::Word(Keyword::Resize))?;
    let (ty, rest) = one(rest, Class::Type)?;
    after_one(rest, Class::Symbol(symbols::OPEN_PAREN))?;
    let (of, rest) = expr_in(alloc, rest, Level::Compare, room)?;
    let rest = after_one(rest, Class::Symbol(symbols::CLOSE_PAREN))?;
    Ok((Boxed::new(alloc, Expr::Resize { word, ty, of })?, rest))
}

// The three arguments of `mux`.
fn three(
    alloc: Global,
    first: Boxed<Expr>,
    second: Boxed<Expr>,
    third: Boxed<Expr>,
) -> Result<Items<Expr>, Stop>
    ensures { Gives (λ x. x) result (Ok (first ∷ second ∷ third ∷ [])) }
{
    let mut args = Items::new(alloc);
    args.push(first.into_inner())?;
    args.push(second.into_inner())?;
    args.push(third.into_inner())?;
    Ok(args)
}

#[cycle(expressions)]
#[tactic(auto, unfolding(crate::specs::Expressions::mux_at))]
fn mux_at(alloc: Global, tokens: &[Token], room: u32) -> Result<(Boxed<Expr>, &[Token]), Stop>
    ensures { Gives (λ x. (x.0, x.1.now)) result (mux_at (expr_in room) tokens.now) }
{
    let (word, rest) = one(tokens, Class::Word(Keyword::Mux))?;
    after_one(rest, Class::Symbol(symbols::OPEN_PAREN))?;
    let (condition, rest) = expr_in(alloc, rest, Level::Compare, room)?;
    after_one(rest, Class::Symbol(symbols::COMMA))?;
    let (chosen, rest) = expr_in(alloc, rest, Level::Compare, room)?;
    after_one(rest, Class::Symbol(symbols::COMMA))?;
    let (other, rest) = expr_in(alloc, rest, Level::Compare, room)?;
    let rest = after_one(rest, Class::Symbol(symbols::CLOSE_PAREN))?;
    let args = three(alloc, condition, chosen, other)?;
    Ok((Boxed::new(alloc, Expr::Mux { word, args })?, rest))
}

#[cycle(expressions)]
#[tactic(auto, unfolding(crate::specs::Expressions::choose_at))]
fn choose_at(alloc: Global, tokens: &[Token], room: u32) -> Result<(Boxed<Expr>, &[Token]), Stop>
    ensures { Gives (λ x. (x.0, x.1.now)) result (choose_at (expr_in room) tokens.now) }
{
    let (word, rest) = one(tokens, Class::Choosing)?;
    after_one(rest, Class::Symbol(symbols::OPEN_PAREN))?;
    let (first, rest) = expr_in(alloc, rest, Level::Compare, room)?;
    after_one(rest, Class::Symbol(symbols::COMMA))?;
    let (second, rest) = expr_in(alloc, rest, Level::Compare, room)?;
    let rest = after_one(rest, Class::Symbol(symbols::CLOSE_PAREN))?;
    let mut args = Items::new(alloc);
    args.push(first.into_inner())?;
    args.push(second.into_inner())?;
    Ok((Boxed::new(alloc, Expr::Call { word, args })?, rest))
}

#[cycle(expressions)]
#[tactic(auto, unfolding(crate::specs::Expressions::count_at))]
fn count_at(alloc: Global, tokens: &[Token], room: u32) -> Result<(Boxed<Expr>, &[Token]), Stop>
    ensures { Gives (λ x. (x.0, x.1.now)) result (count_at (expr_in room) tokens.now) }
{
    let (word, rest) = one(tokens, Class::Counting)?;
    after_one(rest, Class::Symbol(symbols::OPEN_PAREN))?;
    let (operand, rest) = expr_in(alloc, rest, Level::Compare, room)?;
    let rest = after_one(rest, Class::Symbol(symbols::CLOSE_PAREN))?;
    let mut args = Items::new(alloc);
    args.push(operand.into_inner())?;
    Ok((Boxed::new(alloc, Expr::Call { word, args })?, rest))
}

// What begins with a name: a call where `(` is the next token, else a place.
#[cycle(expressions)]
#[tactic(auto, unfolding(crate::specs::Expressions::name_at))]
fn name_at(alloc: Global, tokens: &[Token], room: u32) -> Result<(Boxed<Expr>, &[Token]), Stop>
    ensures { Gives (λ x. (x.0, x.1.now)) result (name_at (expr_in room) room tokens.now) }
{
    if calls(tokens, Class::Choosing) {
        choose_at(alloc, tokens, room)
    } else if calls(tokens, Class::Counting) {
        count_at(alloc, tokens, room)
    } else {
        place_at(alloc, tokens, room)
    }
}

#[cycle(expressions)]
#[tactic(auto, unfolding(crate::specs::Expressions::paren_at))]
fn paren_at(alloc: Global, tokens: &[Token], room: u32) -> Result<(Boxed<Expr>, &[Token]), Stop>
    ensures { Gives (λ x. (x.0, x.1.now)) result (paren_at (expr_in room) tokens.now) }
{
    let (bracket, _) = one(tokens, Class::Symbol(symbols::OPEN_PAREN))?;
    let (inner, rest) = expr_in(alloc, tokens, Level::Compare, room)?;
    let rest = after_one(rest, Class::Symbol(symbols::CLOSE_PAREN))?;
    Ok((Boxed::new(alloc, Expr::Paren { bracket, inner })?, rest))
}

#[cycle(expressions)]
#[tactic(auto, unfolding(crate::specs::Expressions::not_at))]
fn not_at(alloc: Global, tokens: &[Token], room: u32) -> Result<(Boxed<Expr>, &[Token]), Stop>
    ensures { Gives (λ x. (x.0, x.1.now)) result (not_at (expr_in room) tokens.now) }
{
    let (op, _) = one(tokens, Class::Symbol(symbols::NOT))?;
    let (of, rest) = expr_in(alloc, tokens, Level::Unary, room)?;
    Ok((Boxed::new(alloc, Expr::Not { op, of })?, rest))
}

// An operand: what it is, is seen from its first token.
#[inline(never)]
#[cycle(expressions)]
#[tactic(auto, unfolding(crate::specs::Expressions::unary_at))]
fn unary_at(alloc: Global, tokens: &[Token], room: u32) -> Result<(Boxed<Expr>, &[Token]), Stop>
    ensures { Gives (λ x. (x.0, x.1.now)) result (unary_at (expr_in room) room tokens.now) }
{
    if begins(tokens, Class::Symbol(symbols::NOT)) {
        not_at(alloc, tokens, room)
    } else if begins(tokens, Class::Name) {
        name_at(alloc, tokens, room)
    } else if begins(tokens, Class::Word(Keyword::Lit)) {
        lit_at(alloc, tokens, room)
    } else if begins(tokens, Class::Word(Keyword::Resize)) {
        resize_at(alloc, tokens, room)
    } else if begins(tokens, Class::Word(Keyword::Mux)) {
        mux_at(alloc, tokens, room)
    } else {
        paren_at(alloc, tokens, room)
    }
}

// What stands behind the first token: a bracket, a comma or `!`.
#[cycle(expressions)]
#[tactic(auto, unfolding(crate::specs::Expressions::expr_in, crate::specs::Expressions::expr_at))]
fn expr_in(
    alloc: Global,
    tokens: &[Token],
    level: Level,
    room: u32,
) -> Result<(Boxed<Expr>, &[Token]), Stop>
    ensures { Gives (λ x. (x.0, x.1.now)) result (expr_in room (rank level) tokens.now) }
{
    if room == 0 {
        return Err(Stop::TooDeep(tokens.len()));
    }
    match tokens.split_first() {
        Some((_, rest)) => expr_at(alloc, rest, level, room - 1),
        None => expr_at(alloc, tokens, level, room - 1),
    }
}

// Operators and their operands, as long as there are any.
#[cycle(expressions)]
#[tactic(auto, unfolding(crate::specs::Reads::operands))]
fn expr_operands(
    alloc: Global,
    tokens: &[Token],
    operand: Level,
    operators: Class,
    room: u32,
) -> Result<(Items<(Token, Expr)>, &[Token]), Stop>
    ensures { Gives (λ x. (x.0, x.1.now)) result
        (operands (expr_at room (rank operand)) operators (length tokens.now) tokens.now) }
{
    let mut operands = Items::new(alloc);
    let mut left = tokens;
    for _turn in 0..tokens.len() {
        if !begins(left, operators) {
            break;
        }
        let (op, rest) = one(left, operators)?;
        let (value, rest) = expr_at(alloc, rest, operand, room)?;
        operands.push((op, value.into_inner()))?;
        left = rest;
    }
    Ok((operands, left))
}

// An operand alone, or a chain.
fn chain_of(
    alloc: Global,
    first: Boxed<Expr>,
    rest: Items<(Token, Expr)>,
) -> Result<Boxed<Expr>, Stop>
    ensures { Gives (λ x. x) result (Ok (chain_of first rest)) }
{
    if rest.is_empty() {
        Ok(first)
    } else {
        Ok(Boxed::new(alloc, Expr::Chain { first, rest })?)
    }
}

// One level of operators in any number.
#[inline(never)]
#[cycle(expressions)]
#[tactic(auto, unfolding(crate::specs::Expressions::chain_at))]
fn chain_at(
    alloc: Global,
    tokens: &[Token],
    operand: Level,
    operators: Class,
    room: u32,
) -> Result<(Boxed<Expr>, &[Token]), Stop>
    ensures { Gives (λ x. (x.0, x.1.now)) result
        (chain_at (expr_at room (rank operand)) operators tokens.now) }
{
    let (first, left) = expr_at(alloc, tokens, operand, room)?;
    let (rest, left) = expr_operands(alloc, left, operand, operators, room)?;
    Ok((chain_of(alloc, first, rest)?, left))
}

// An operand alone, or a chain of shifts.
fn shift_of(
    alloc: Global,
    first: Boxed<Expr>,
    rest: Items<(Token, ConstExpr)>,
) -> Result<Boxed<Expr>, Stop>
    ensures { Gives (λ x. x) result (Ok (shift_of first rest)) }
{
    if rest.is_empty() {
        Ok(first)
    } else {
        Ok(Boxed::new(alloc, Expr::Shift { first, rest })?)
    }
}

// Shifts.
#[inline(never)]
#[cycle(expressions)]
#[tactic(auto, unfolding(crate::specs::Expressions::shift_at))]
fn shift_at(alloc: Global, tokens: &[Token], room: u32) -> Result<(Boxed<Expr>, &[Token]), Stop>
    ensures { Gives (λ x. (x.0, x.1.now)) result (shift_at (expr_at room 2) room tokens.now) }
{
    let (first, left) = expr_at(alloc, tokens, Level::Sum, room)?;
    let (rest, left) = const_operands(alloc, left, ConstLevel::Atom, Class::Shifting, room)?;
    Ok((shift_of(alloc, first, rest)?, left))
}

// A chain of one operator.
fn comparison(
    alloc: Global,
    first: Boxed<Expr>,
    op: Token,
    second: Boxed<Expr>,
) -> Result<Boxed<Expr>, Stop>
    ensures { Gives (λ x. x) result (Ok (chain_of first ((op, second) ∷ []))) }
{
    let mut rest = Items::new(alloc);
    rest.push((op, second.into_inner()))?;
    Ok(Boxed::new(alloc, Expr::Chain { first, rest })?)
}

// One comparison at most.
#[inline(never)]
#[cycle(expressions)]
#[tactic(auto, unfolding(crate::specs::Expressions::compare_at, crate::specs::Expressions::compare_from))]
fn compare_at(alloc: Global, tokens: &[Token], room: u32) -> Result<(Boxed<Expr>, &[Token]), Stop>
    ensures { Gives (λ x. (x.0, x.1.now)) result (compare_at (expr_at room 6) tokens.now) }
{
    let (first, left) = expr_at(alloc, tokens, Level::Or, room)?;
    if !begins(left, Class::Comparing) {
        return Ok((first, left));
    }
    let (op, left) = one(left, Class::Comparing)?;
    let (second, left) = expr_at(alloc, left, Level::Or, room)?;
    Ok((comparison(alloc, first, op, second)?, left))
}

// An expression of this level, with room for so many brackets and signs. The functions of the
// levels are kept out of line, so that each level takes its own place on the stack and no other's.
#[cycle(expressions)]
#[tactic(auto, unfolding(crate::specs::Expressions::expr_at, crate::specs::Expressions::expr_from))]
pub fn expr_at(
    alloc: Global,
    tokens: &[Token],
    level: Level,
    room: u32,
) -> Result<(Boxed<Expr>, &[Token]), Stop>
    ensures { Gives (λ x. (x.0, x.1.now)) result (expr_at room (rank level) tokens.now) }
{
    match level {
        Level::Unary => unary_at(alloc, tokens, room),
        Level::Product => chain_at(alloc, tokens, Level::Unary, Class::Scaling, room),
        Level::Sum => chain_at(alloc, tokens, Level::Product, Class::Adding, room),
        Level::Shift => shift_at(alloc, tokens, room),
        Level::And => chain_at(
            alloc,
            tokens,
            Level::Shift,
            Class::Symbol(symbols::AND),
            room,
        ),
        Level::Xor => chain_at(alloc, tokens, Level::And, Class::Symbol(symbols::XOR), room),
        Level::Or => chain_at(alloc, tokens, Level::Xor, Class::Symbol(symbols::OR), room),
        Level::Compare => compare_at(alloc, tokens, room),
    }
}
