// Places: what names and items of arrays stand for.
ghost use Rattle.std.specs.Prelude.{◌≡◌, slice_index};
ghost use Rattle.std.specs.Option.{option_copied};
ghost use Rattle.mage_meaning.specs.Run.{moment_of};
ghost use Rattle.mage_meaning.specs.Value.{wide, as_number, as_row, item_with, item_at};

use crate::arithmetic::wide;
use crate::constants::number_in;
use crate::known::{Known, Wide};
use crate::run::Run;
use crate::width::Width;
use mage_lex::Token;
use mage_tree::{ConstExpr, Item, bytes_of};

/// The value at a place, and 0 where there is none.
pub fn entry(values: &[u128], position: u128) -> u128
    ensures { result ≡ slice_index values.now position }
{
    match usize::try_from(position) {
        Ok(position) => values.get(position).copied().unwrap_or(0),
        Err(_) => 0,
    }
}

// The number that a name stands for.
fn as_number(value: Option<&Known>) -> Wide
    ensures { result ≡ as_number (option_copied value.entry) }
{
    match value {
        Some(Known::Number(number)) => *number,
        _ => wide(Width::new(1), 0),
    }
}

// The number at a place in the array that a name stands for.
fn item_of(value: Option<&Known>, position: u128) -> Wide
    ensures { result ≡ wide (as_row (option_copied value.entry)).width
        (slice_index (as_row (option_copied value.entry)).values position) }
{
    match value {
        Some(Known::Array(row)) => wide(row.width, entry(row.values.as_slice(), position)),
        _ => wide(Width::new(1), 0),
    }
}

// The number that a name stands for, or the one at this index.
#[tactic(auto, unfolding(crate::specs::Run::moment_of))]
fn item_with(run: &Run<'_>, name: &Token, index: &Option<(Token, ConstExpr)>) -> Wide
    ensures { result ≡ item_with name.now index.now (moment_of run.now) }
{
    let value = run.names.get(bytes_of(name));
    match index {
        None => as_number(value),
        Some((_, index)) => item_of(value, number_in(run, index)),
    }
}

/// The number at a place.
pub fn item_at(run: &Run<'_>, item: &Item) -> Wide
    ensures { result ≡ item_at item.now (moment_of run.now) }
{
    item_with(run, &item.name, &item.index)
}
