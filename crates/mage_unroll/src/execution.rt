// The execution of statements.
#![tactic(auto, unfolding(crate::specs::Unroller::state_of))]

ghost use Rattle.std.specs.Prelude.{◌≡◌, map};
ghost use Rattle.mage_tree.specs.declared.tree.Stmt.TheOpen.{Stmt-F};
ghost use Rattle.mage_constants.specs.Ranges.{distance};
ghost use Rattle.mage_unroll.specs.Statements.{all_acts, in_scope, turn, turns, stmt_layer, executed};
ghost use Rattle.mage_unroll.specs.Unroller.{Does};

use crate::Named;
use crate::headers::first_token;
use crate::unroller::Unroller;
use mage_constants::{fault_at, number_below};
use mage_lex::{LangFault, LangKind, Token};
use mage_tree::{ConstExpr, Stmt};

/// Executes a statement.
#[cycle(statements)]
#[tactic(auto, unfolding(crate::specs::Statements::executed))]
pub fn execute<'a>(unroller: &mut Unroller<'a>, statement: &'a Stmt) -> Result<(), LangFault>
    ensures { Does (executed statement.now) unroller.old unroller.new result }
{
    match statement {
        Stmt::Constant { word, name, value } => unroller.constant(word, name, value),
        Stmt::Input {
            word,
            party,
            name,
            ty,
            length,
        } => unroller.input(word, party, name, ty, length),
        Stmt::Let { word, name, value } => unroller.declare(word, name, value.get()),
        Stmt::Array {
            word,
            name,
            ty,
            length,
            eq,
            value,
        } => unroller.array(word, name, ty, length, eq, value.get()),
        Stmt::Assign { place, eq, value } => unroller.rebind(place, eq, value.get()),
        Stmt::Move { word, name, place } => unroller.take(word, name, place),
        Stmt::On { word, worker, body } => on_worker(unroller, body.as_slice(), word, worker),
        Stmt::For {
            word,
            name,
            from,
            to,
            body,
        } => repeat(unroller, body.as_slice(), word, name, from, to),
        Stmt::If {
            word,
            left,
            op,
            right,
            yes,
            no,
        } => {
            if unroller.condition(word, left, op, right)? {
                block(unroller, yes.as_slice())
            } else if let Some(no) = no {
                block(unroller, no.as_slice())
            } else {
                Ok(())
            }
        }
        Stmt::Output { word, value } => unroller.output(word, value.get()),
    }
}

/// Executes statements in their order.
#[cycle(statements)]
pub fn all<'a>(unroller: &mut Unroller<'a>, body: &'a [Stmt]) -> Result<(), LangFault>
    ensures { Does (all_acts (map executed body.now)) unroller.old unroller.new result }
{
    for statement in body {
        execute(unroller, statement)?;
    }
    Ok(())
}

// Statements in a scope of their own.
#[cycle(statements)]
fn block<'a>(unroller: &mut Unroller<'a>, body: &'a [Stmt]) -> Result<(), LangFault>
    ensures { Does (in_scope (all_acts (map executed body.now))) unroller.old unroller.new result }
{
    unroller.enter()?;
    all(unroller, body)?;
    unroller.leave();
    Ok(())
}

// Statements on the worker that the constant names; the current worker is the one before again
// afterwards.
#[cycle(statements)]
#[tactic(auto, unfolding(crate::specs::Unroller::state_of, crate::specs::Statements::stmt_layer))]
fn on_worker<'a>(
    unroller: &mut Unroller<'a>,
    body: &'a [Stmt],
    word: &Token,
    worker: &ConstExpr,
) -> Result<(), LangFault>
    ensures { Does (stmt_layer (Stmt-F.On word.now worker.now (map executed body.now)))
        unroller.old unroller.new result }
{
    unroller.step(word)?;
    let number = unroller.value_of(worker)?;
    let fault = fault_at(LangKind::BadWorker, first_token(worker));
    let chosen = number_below(u128::from(unroller.workers), number).ok_or(fault)?;
    let before = unroller.worker;
    unroller.worker = chosen as u8;
    all(unroller, body)?;
    unroller.worker = before;
    Ok(())
}

// The header of a `for`, and its turns.
#[cycle(statements)]
#[tactic(auto, unfolding(crate::specs::Unroller::state_of, crate::specs::Statements::stmt_layer))]
fn repeat<'a>(
    unroller: &mut Unroller<'a>,
    body: &'a [Stmt],
    word: &Token,
    name: &'a Token,
    from: &ConstExpr,
    to: &ConstExpr,
) -> Result<(), LangFault>
    ensures { Does
        (stmt_layer (Stmt-F.For word.now name.now from.now to.now (map executed body.now)))
        unroller.old unroller.new result }
{
    unroller.step(word)?;
    unroller.is_free(name)?;
    let first = unroller.value_of(from)?;
    let end = unroller.value_of(to)?;
    turns(unroller, body, word, name, first, end)
}

// One turn for each number from the first to below the second.
#[cycle(statements)]
fn turns<'a>(
    unroller: &mut Unroller<'a>,
    body: &'a [Stmt],
    word: &Token,
    name: &'a Token,
    first: i128,
    end: i128,
) -> Result<(), LangFault>
    ensures { Does
        (turns (distance first end) first word.now name.now (all_acts (map executed body.now)))
        unroller.old unroller.new result }
{
    let mut number = first;
    while number < end {
        turn(unroller, body, word, name, number)?;
        number += 1;
    }
    Ok(())
}

// A turn of a loop: a step, and then the statements in a scope of their own.
#[cycle(statements)]
fn turn<'a>(
    unroller: &mut Unroller<'a>,
    body: &'a [Stmt],
    word: &Token,
    name: &'a Token,
    number: i128,
) -> Result<(), LangFault>
    ensures { Does (turn number word.now name.now (all_acts (map executed body.now)))
        unroller.old unroller.new result }
{
    unroller.step(word)?;
    unroller.enter()?;
    unroller.bind(name, Named::Constant(number))?;
    all(unroller, body)?;
    unroller.leave();
    Ok(())
}
