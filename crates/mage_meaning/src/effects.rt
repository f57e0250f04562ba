// What statements do to a run: what names stand for, inputs that are taken, and outputs.
#![tactic(auto, unfolding(crate::specs::Run::moment_of))]

ghost use Rattle.std.specs.Prelude.{◌≡◌, map, drop, set, IfOk, OnOk};
ghost use Rattle.mage_scopes.specs.Scopes.{scopes_of, replaced, found};
ghost use Rattle.mage_linked.specs.Workers.{list_at};
ghost use Rattle.mage_meaning.specs.Run.{moment_of};
ghost use Rattle.mage_meaning.specs.Value.{bound, as_row, first_of, without_first, taken, after_taking, with_output, assigned};
ghost use Rattle.mage_meaning.specs.declared.known.Known.TheVariants as known;

use crate::constants::number_in;
use crate::known::{Known, Row, Wide};
use crate::parties::is_evaluator;
use crate::places::entry;
use crate::run::Run;
use crate::width::Width;
use mage_base::Memory;
use mage_lex::Token;
use mage_scopes::Scopes;
use mage_tree::{ConstExpr, bytes_of};
use sqlite_items::Items;
use std::alloc::Global;

/// The name stands for the value in the innermost scope.
pub fn bind<'a>(run: &mut Run<'a>, name: &'a Token, value: Known) -> Result<(), Memory>
    ensures { OnOk result (moment_of run.new ≡ bound name.now value (moment_of run.old)) }
{
    run.names.declare(bytes_of(name), value)
}

// ---- inputs

// The values of a worker, of whom there may be none.
fn list_at<'a>(lists: &[&'a [u128]], worker: u128) -> &'a [u128]
    ensures { result.now ≡ list_at (map (λ own. own.now) lists.now) worker }
{
    if worker < lists.len() as u128 {
        lists[worker as usize]
    } else {
        &[]
    }
}

// The values without the first so many.
fn without(values: &[u128], count: usize) -> &[u128]
    ensures { result.now ≡ drop count values.now }
{
    values.get(count..).unwrap_or(&[])
}

// A worker's list loses its first values.
fn take_first(lists: &mut Vec<&[u128]>, worker: u128, count: usize)
    ensures { map (λ own. own.now) lists.new.items
        ≡ without_first count worker (map (λ own. own.now) lists.old.items) }
{
    if worker < lists.len() as u128 {
        let worker = worker as usize;
        lists[worker] = without(lists[worker], count);
    }
}

// The first so many values, with 0 for each that isn't there.
fn first_of(alloc: Global, values: &[u128], count: usize) -> Result<Items<u128>, Memory>
    ensures { IfOk result (λ items. items ≡ first_of count values.now) }
{
    let mut items = Vec::with_capacity(alloc, count)?;
    for place in 0..count {
        items.push(entry(values, place as u128))?;
    }
    Ok(Items::from_vec(items))
}

/// Takes the current worker's next so many values of a party.
pub fn take(run: &mut Run<'_>, party: &Token, count: usize) -> Result<Items<u128>, Memory>
    ensures items { IfOk result (λ items. items ≡ taken party.now count (moment_of run.old)) }
    ensures after { OnOk result (moment_of run.new
        ≡ after_taking party.now count (moment_of run.old)) }
{
    if is_evaluator(party) {
        let own = list_at(run.evaluator.as_slice(), run.worker);
        let items = first_of(run.alloc, own, count)?;
        take_first(&mut run.evaluator, run.worker, count);
        Ok(items)
    } else {
        let own = list_at(run.garbler.as_slice(), run.worker);
        let items = first_of(run.alloc, own, count)?;
        take_first(&mut run.garbler, run.worker, count);
        Ok(items)
    }
}

// ---- outputs

// One output more of a worker.
fn add_output(outputs: &mut Vec<Vec<u128>>, worker: u128, value: u128) -> Result<(), Memory>
    ensures { OnOk result (map (λ own. own.items) outputs.new.items
        ≡ with_output (map (λ own. own.items) outputs.old.items) worker value) }
{
    if worker < outputs.len() as u128 {
        outputs[worker as usize].push(value)?;
    }
    Ok(())
}

/// One output more of the current worker.
pub fn give_out(run: &mut Run<'_>, value: u128) -> Result<(), Memory>
    ensures { OnOk result (moment_of run.new ≡ record (moment_of run.old) {
      outputs = with_output (moment_of run.old).outputs (moment_of run.old).worker value;
    }) }
{
    add_output(&mut run.outputs, run.worker, value)
}

// ---- assignments

// The row with another value at a place, if it has that place.
fn set_entry(row: Row, position: u128, value: u128) -> Row
    ensures { result ≡ record row { values = set row.values position value } }
{
    let mut row = row;
    if let Ok(position) = usize::try_from(position) {
        if position < row.values.len() {
            row.values.set(position, value);
        }
    }
    row
}

// Puts a value into an item of the array that the name stands for.
fn set_item(names: &mut Scopes<'_, Known>, alloc: Global, name: &[u8], position: u128, value: u128)
    ensures { scopes_of names.new ≡ replaced (scopes_of names.old) name.now (known.Array
        (record (as_row (found (scopes_of names.old) name.now)) {
          values = set (as_row (found (scopes_of names.old) name.now)).values position value;
        })) }
{
    let nothing = Row {
        width: Width::new(1),
        values: Items::new(alloc),
    };
    if let Some(Known::Array(row)) = names.replace(name, Known::Array(nothing)) {
        let row = set_entry(row, position, value);
        let _ = names.replace(name, Known::Array(row));
    }
}

/// The place stands for the number.
pub fn assign(run: &mut Run<'_>, name: &Token, index: &Option<(Token, ConstExpr)>, number: Wide)
    ensures { moment_of run.new ≡ assigned name.now index.now number (moment_of run.old) }
{
    match index {
        None => {
            let _ = run.names.replace(bytes_of(name), Known::Number(number));
        }
        Some((_, index)) => {
            let position = number_in(run, index);
            set_item(
                &mut run.names,
                run.alloc,
                bytes_of(name),
                position,
                number.value,
            );
        }
    }
}
