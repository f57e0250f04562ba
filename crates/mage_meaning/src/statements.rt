// What statements do.
#![tactic(auto, unfolding(crate::specs::Run::moment_of))]

ghost use Rattle.std.specs.Prelude.{◌≡◌, ◌+ℤ◌, pos, map, replicate, OnOk, IfOk};
ghost use Rattle.mage_constants.specs.Ranges.{distance, holds};
ghost use Rattle.mage_meaning.specs.Run.{moment_of};
ghost use Rattle.mage_meaning.specs.Value.{bound, constant_in, number_in, number_of_expr, width_or_one, with_input, all_changes, in_scope, turns, change_of, assigned, item_at, with_output};
ghost use Rattle.mage_meaning.specs.declared.known.Known.TheVariants as known;

use crate::arithmetic::wide;
use crate::constants::{constant_in, number_in};
use crate::effects::{assign, bind, give_out, take};
use crate::expressions::number_of_expr;
use crate::known::{Known, Row};
use crate::places::{entry, item_at};
use crate::run::Run;
use crate::width::{Width, width_or_one};
use mage_base::Memory;
use mage_constants::holds;
use mage_lex::Token;
use mage_tree::{ConstExpr, Expr, Item, Stmt};
use sqlite_items::Items;
use std::alloc::Global;

/// A length that a list can have. There is no memory for a longer one.
pub fn size_of_list(length: u128) -> Result<usize, Memory>
    ensures { IfOk result (λ size. size ≡ length) }
{
    usize::try_from(length).map_err(|_| Memory)
}

// The statement `input`, of a scalar or of an array of this length.
#[tactic(auto, unfolding(crate::specs::Run::moment_of, crate::specs::Value::with_input))]
fn input<'a>(
    run: &mut Run<'a>,
    length: &Option<(Token, ConstExpr)>,
    party: &Token,
    name: &'a Token,
    width: Width,
) -> Result<(), Memory>
    ensures { OnOk result (moment_of run.new
        ≡ with_input length.now party.now name.now width (moment_of run.old)) }
{
    match length {
        None => {
            let values = take(run, party, 1)?;
            let number = wide(width, entry(values.as_slice(), 0));
            bind(run, name, Known::Number(number))
        }
        Some((_, length)) => {
            let size = size_of_list(number_in(run, length))?;
            let values = take(run, party, size)?;
            bind(run, name, Known::Array(Row { width, values }))
        }
    }
}

// The values of an array, each the same.
fn copies(alloc: Global, count: usize, value: u128) -> Result<Items<u128>, Memory>
    ensures { IfOk result (λ items. items ≡ replicate count value) }
{
    Ok(Items::from_vec(vec![in alloc; value; count]?))
}

// The statement `array`.
fn array<'a>(
    run: &mut Run<'a>,
    name: &'a Token,
    length: &ConstExpr,
    value: &Expr,
) -> Result<(), Memory>
    ensures { OnOk result (moment_of run.new ≡ bound name.now (known.Array (record {
      width = (number_of_expr value.now (moment_of run.old)).width;
      values = replicate (number_in length.now (moment_of run.old))
          (number_of_expr value.now (moment_of run.old)).value;
    })) (moment_of run.old)) }
{
    let number = number_of_expr(run, value);
    let size = size_of_list(number_in(run, length))?;
    let row = Row {
        width: number.width,
        values: copies(run.alloc, size, number.value)?,
    };
    bind(run, name, Known::Array(row))
}

// The statement `const`.
fn constant<'a>(run: &mut Run<'a>, name: &'a Token, value: &ConstExpr) -> Result<(), Memory>
    ensures { OnOk result (moment_of run.new ≡ bound name.now
        (known.Constant (constant_in value.now (moment_of run.old))) (moment_of run.old)) }
{
    let number = constant_in(run, value);
    bind(run, name, Known::Constant(number))
}

// The statement `let`.
fn declare<'a>(run: &mut Run<'a>, name: &'a Token, value: &Expr) -> Result<(), Memory>
    ensures { OnOk result (moment_of run.new ≡ bound name.now
        (known.Number (number_of_expr value.now (moment_of run.old))) (moment_of run.old)) }
{
    let number = number_of_expr(run, value);
    bind(run, name, Known::Number(number))
}

// An assignment. It takes no memory, and answers as the other statements do.
fn rebind(run: &mut Run<'_>, place: &Item, value: &Expr) -> Result<(), Memory>
    ensures { OnOk result (moment_of run.new ≡ assigned place.now.name place.now.index
        (number_of_expr value.now (moment_of run.old)) (moment_of run.old)) }
{
    let number = number_of_expr(run, value);
    assign(run, &place.name, &place.index, number);
    Ok(())
}

// The statement `move`.
fn receive<'a>(run: &mut Run<'a>, name: &'a Token, place: &Item) -> Result<(), Memory>
    ensures { OnOk result (moment_of run.new ≡ bound name.now
        (known.Number (item_at place.now (moment_of run.old))) (moment_of run.old)) }
{
    let number = item_at(run, place);
    bind(run, name, Known::Number(number))
}

// The statement `output`.
fn output(run: &mut Run<'_>, value: &Expr) -> Result<(), Memory>
    ensures { OnOk result (moment_of run.new ≡ record (moment_of run.old) {
      outputs = with_output (moment_of run.old).outputs (moment_of run.old).worker
          (number_of_expr value.now (moment_of run.old)).value;
    }) }
{
    let number = number_of_expr(run, value);
    give_out(run, number.value)
}

/// What a statement does.
#[cycle(statements)]
#[tactic(auto, unfolding(crate::specs::Value::change_of, crate::specs::Value::change_layer))]
pub fn execute<'a>(run: &mut Run<'a>, statement: &'a Stmt) -> Result<(), Memory>
    ensures { OnOk result (moment_of run.new ≡ change_of statement.now (moment_of run.old)) }
{
    match statement {
        Stmt::Constant { name, value, .. } => constant(run, name, value),
        Stmt::Input {
            party,
            name,
            ty,
            length,
            ..
        } => input(run, length, party, name, width_or_one(ty)),
        Stmt::Let { name, value, .. } => declare(run, name, value.get()),
        Stmt::Array {
            name,
            length,
            value,
            ..
        } => array(run, name, &length.1, value.get()),
        Stmt::Assign { place, value, .. } => rebind(run, place, value.get()),
        Stmt::Move { name, place, .. } => receive(run, name, place),
        Stmt::On { worker, body, .. } => on_worker(run, body.as_slice(), worker),
        Stmt::For {
            name,
            from,
            to,
            body,
            ..
        } => repeat(run, body.as_slice(), name, from, to),
        Stmt::If {
            left,
            op,
            right,
            yes,
            no,
            ..
        } => {
            if holds(op, constant_in(run, left), constant_in(run, right)) {
                block(run, yes.as_slice())
            } else if let Some(no) = no {
                block(run, no.as_slice())
            } else {
                Ok(())
            }
        }
        Stmt::Output { value, .. } => output(run, value.get()),
    }
}

/// What statements do, in their order.
#[cycle(statements)]
pub fn execute_all<'a>(run: &mut Run<'a>, body: &'a [Stmt]) -> Result<(), Memory>
    ensures { OnOk result (moment_of run.new
        ≡ all_changes (map change_of body.now) (moment_of run.old)) }
{
    for statement in body {
        execute(run, statement)?;
    }
    Ok(())
}

// Statements in a scope of their own.
#[cycle(statements)]
fn block<'a>(run: &mut Run<'a>, body: &'a [Stmt]) -> Result<(), Memory>
    ensures { OnOk result (moment_of run.new
        ≡ in_scope (all_changes (map change_of body.now)) (moment_of run.old)) }
{
    run.names.enter()?;
    execute_all(run, body)?;
    run.names.leave();
    Ok(())
}

// Statements on the worker that the constant names; the current worker is the one before again
// afterwards.
#[cycle(statements)]
fn on_worker<'a>(run: &mut Run<'a>, body: &'a [Stmt], worker: &ConstExpr) -> Result<(), Memory>
    ensures { OnOk result (moment_of run.new ≡ record (all_changes (map change_of body.now)
        (record (moment_of run.old) { worker = number_in worker.now (moment_of run.old) }))
        { worker = (moment_of run.old).worker }) }
{
    let before = run.worker;
    run.worker = number_in(run, worker);
    execute_all(run, body)?;
    run.worker = before;
    Ok(())
}

// A turn for each number from the first constant to below the second.
#[cycle(statements)]
fn repeat<'a>(
    run: &mut Run<'a>,
    body: &'a [Stmt],
    name: &'a Token,
    from: &ConstExpr,
    to: &ConstExpr,
) -> Result<(), Memory>
    ensures { OnOk result (moment_of run.new ≡ turns
        (distance (constant_in from.now (moment_of run.old))
        (constant_in to.now (moment_of run.old)))
        (constant_in from.now (moment_of run.old)) name.now
        (all_changes (map change_of body.now)) (moment_of run.old)) }
{
    let first = constant_in(run, from);
    let end = constant_in(run, to);
    turns(run, name, first, end, body)
}

// One turn for each number from the first to below the end.
#[cycle(statements)]
fn turns<'a>(
    run: &mut Run<'a>,
    name: &'a Token,
    first: i128,
    end: i128,
    body: &'a [Stmt],
) -> Result<(), Memory>
    ensures { OnOk result (moment_of run.new ≡ turns (distance first end) first name.now
        (all_changes (map change_of body.now)) (moment_of run.old)) }
{
    let mut number = first;
    while number < end {
        turn(run, name, number, body)?;
        number += 1;
    }
    Ok(())
}

// A turn of a loop, in a scope of its own.
#[cycle(statements)]
fn turn<'a>(
    run: &mut Run<'a>,
    name: &'a Token,
    number: i128,
    body: &'a [Stmt],
) -> Result<(), Memory>
    ensures { OnOk result (moment_of run.new ≡ in_scope
        (λ inner. all_changes (map change_of body.now)
        (bound name.now (known.Constant number) inner)) (moment_of run.old)) }
{
    run.names.enter()?;
    bind(run, name, Known::Constant(number))?;
    execute_all(run, body)?;
    run.names.leave();
    Ok(())
}
