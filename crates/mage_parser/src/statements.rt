// Reading statements.
ghost use Rattle.std.specs.Prelude.{◌≡◌, ◌≤◌, ℕ, List, [], ◌∷◌, Option, Some, Result, Ok, length};
ghost use Rattle.mage_parser.specs.Reads.{Gives};
ghost use Rattle.mage_parser.specs.Statements.{constant_at, input_at, let_at, array_at, assign_at, move_at, output_at};

use crate::constants::const_at;
use crate::expressions::{bracketed, expr_at, index_at, item_at};
use crate::front::{after_one, begins, one};
use crate::level::{ConstLevel, Level};
use crate::stop::Stop;
use mage_lex::{Token, symbols};
use mage_tree::{Class, Keyword, Stmt};
use std::alloc::Global;

#[tactic(auto, unfolding(crate::specs::Statements::constant_at))]
pub fn constant_at(alloc: Global, tokens: &[Token], room: u32) -> Result<(Stmt, &[Token]), Stop>
    ensures { Gives (λ x. (x.0, x.1.now)) result (constant_at room tokens.now) }
{
    let (word, rest) = one(tokens, Class::Word(Keyword::Const))?;
    let (name, rest) = one(rest, Class::Name)?;
    let rest = after_one(rest, Class::Symbol(symbols::ASSIGN))?;
    let (value, rest) = const_at(alloc, rest, ConstLevel::Sum, room)?;
    let rest = after_one(rest, Class::Symbol(symbols::SEMICOLON))?;
    let value = value.into_inner();
    Ok((Stmt::Constant { word, name, value }, rest))
}

#[tactic(auto, unfolding(crate::specs::Statements::input_at))]
pub fn input_at(alloc: Global, tokens: &[Token], room: u32) -> Result<(Stmt, &[Token]), Stop>
    ensures { Gives (λ x. (x.0, x.1.now)) result (input_at room tokens.now) }
{
    let (word, rest) = one(tokens, Class::Word(Keyword::Input))?;
    let (party, rest) = one(rest, Class::Party)?;
    let (name, rest) = one(rest, Class::Name)?;
    let rest = after_one(rest, Class::Symbol(symbols::COLON))?;
    let (ty, rest) = one(rest, Class::Type)?;
    let (length, rest) = index_at(alloc, rest, room)?;
    let rest = after_one(rest, Class::Symbol(symbols::SEMICOLON))?;
    Ok((
        Stmt::Input {
            word,
            party,
            name,
            ty,
            length,
        },
        rest,
    ))
}

#[tactic(auto, unfolding(crate::specs::Statements::let_at))]
pub fn let_at(alloc: Global, tokens: &[Token], room: u32) -> Result<(Stmt, &[Token]), Stop>
    ensures { Gives (λ x. (x.0, x.1.now)) result (let_at room tokens.now) }
{
    let (word, rest) = one(tokens, Class::Word(Keyword::Let))?;
    let (name, rest) = one(rest, Class::Name)?;
    let rest = after_one(rest, Class::Symbol(symbols::ASSIGN))?;
    let (value, rest) = expr_at(alloc, rest, Level::Compare, room)?;
    let rest = after_one(rest, Class::Symbol(symbols::SEMICOLON))?;
    Ok((Stmt::Let { word, name, value }, rest))
}

#[tactic(auto, unfolding(crate::specs::Statements::array_at))]
pub fn array_at(alloc: Global, tokens: &[Token], room: u32) -> Result<(Stmt, &[Token]), Stop>
    ensures { Gives (λ x. (x.0, x.1.now)) result (array_at room tokens.now) }
{
    let (word, rest) = one(tokens, Class::Word(Keyword::Array))?;
    let (name, rest) = one(rest, Class::Name)?;
    let rest = after_one(rest, Class::Symbol(symbols::COLON))?;
    let (ty, rest) = one(rest, Class::Type)?;
    let ((bracket, length), rest) = bracketed(alloc, rest, room)?;
    let (eq, rest) = one(rest, Class::Symbol(symbols::ASSIGN))?;
    let (value, rest) = expr_at(alloc, rest, Level::Compare, room)?;
    let rest = after_one(rest, Class::Symbol(symbols::SEMICOLON))?;
    Ok((
        Stmt::Array {
            word,
            name,
            ty,
            length: (bracket, length.into_inner()),
            eq,
            value,
        },
        rest,
    ))
}

#[tactic(auto, unfolding(crate::specs::Statements::assign_at))]
pub fn assign_at(alloc: Global, tokens: &[Token], room: u32) -> Result<(Stmt, &[Token]), Stop>
    ensures { Gives (λ x. (x.0, x.1.now)) result (assign_at room tokens.now) }
{
    let (place, rest) = item_at(alloc, tokens, room)?;
    let (eq, rest) = one(rest, Class::Symbol(symbols::ASSIGN))?;
    let (value, rest) = expr_at(alloc, rest, Level::Compare, room)?;
    let rest = after_one(rest, Class::Symbol(symbols::SEMICOLON))?;
    let place = place.into_inner();
    Ok((Stmt::Assign { place, eq, value }, rest))
}

#[tactic(auto, unfolding(crate::specs::Statements::move_at))]
pub fn move_at(alloc: Global, tokens: &[Token], room: u32) -> Result<(Stmt, &[Token]), Stop>
    ensures { Gives (λ x. (x.0, x.1.now)) result (move_at room tokens.now) }
{
    let (word, rest) = one(tokens, Class::Word(Keyword::Move))?;
    let (name, rest) = one(rest, Class::Name)?;
    let rest = after_one(rest, Class::Symbol(symbols::ASSIGN))?;
    let (place, rest) = item_at(alloc, rest, room)?;
    let rest = after_one(rest, Class::Symbol(symbols::SEMICOLON))?;
    let place = place.into_inner();
    Ok((Stmt::Move { word, name, place }, rest))
}

#[tactic(auto, unfolding(crate::specs::Statements::output_at))]
pub fn output_at(alloc: Global, tokens: &[Token], room: u32) -> Result<(Stmt, &[Token]), Stop>
    ensures { Gives (λ x. (x.0, x.1.now)) result (output_at room tokens.now) }
{
    let (word, rest) = one(tokens, Class::Word(Keyword::Output))?;
    let (value, rest) = expr_at(alloc, rest, Level::Compare, room)?;
    let rest = after_one(rest, Class::Symbol(symbols::SEMICOLON))?;
    Ok((Stmt::Output { word, value }, rest))
}
