// Places: a name, or an item of an array.
#![tactic(auto, unfolding(crate::specs::Unroller::state_of, crate::specs::State::item_of, crate::specs::State::place_with, crate::specs::State::own_place))]

ghost use Rattle.std.specs.Prelude.{◌≡◌, Some, None};
ghost use Rattle.std.specs.Option.{option_copied};
ghost use Rattle.mage_scopes.specs.Scopes.{scopes_of, found};
ghost use Rattle.mage_tree.specs.Words.{bytes_of};
ghost use Rattle.mage_constants.specs.Answer.{Gives};
ghost use Rattle.mage_unroll.specs.State.{as_scalar, as_array, position_of, item_of, place_with, place_of, own_place, rebound, assigned};
ghost use Rattle.mage_unroll.specs.Unroller.{state_of};
ghost use Rattle.mage_unroll.specs.declared.state.Named.TheVariants as named;

use crate::state::Held;
use crate::unroller::Unroller;
use crate::{Array, Named, Scalar, Variable};
use mage_constants::{fault_at, number_below};
use mage_lex::{LangFault, LangKind, Token};
use mage_tree::{ConstExpr, Item, bytes_of};

fn as_scalar(value: Option<&Named>) -> Option<Scalar>
    ensures { result ≡ as_scalar (option_copied value.entry) }
{
    match value {
        Some(Named::Scalar(scalar)) => Some(*scalar),
        Some(Named::Constant(_)) | Some(Named::Array(_)) | None => None,
    }
}

fn as_array(value: Option<&Named>) -> Option<&Array>
    ensures { option_copied result ≡ as_array (option_copied value.entry) }
{
    match value {
        Some(Named::Array(array)) => Some(array),
        Some(Named::Constant(_)) | Some(Named::Scalar(_)) | None => None,
    }
}

// The place in an array that an index stands for.
fn position_of(index: i128, array: &Array) -> Option<usize>
    ensures { result ≡ position_of index array.now }
{
    match number_below(array.items.len() as u128, index) {
        Some(position) => Some(position as usize),
        None => None,
    }
}

// The same name or item, with another variable.
fn rebound(old: Named, position: Option<usize>, index: u32) -> Named
    ensures { result ≡ rebound position index old }
{
    match old {
        Named::Scalar(scalar) => Named::Scalar(rebound_scalar(scalar, position, index)),
        Named::Array(array) => Named::Array(rebound_array(array, position, index)),
        Named::Constant(value) => Named::Constant(value),
    }
}

impl Unroller<'_> {
    // The scalar that a name stands for.
    fn scalar(&self, name: &Token) -> Result<Held, LangFault>
        ensures { Gives (λ x. x) result (place_with name.now None (state_of self.now)) }
    {
        let scalar = as_scalar(self.scopes.get(bytes_of(name)));
        let Scalar { worker, variable } = scalar.ok_or(fault_at(LangKind::UnknownName, name))?;
        let position = None;
        Ok(Held {
            worker,
            variable,
            position,
        })
    }

    // The item of an array at an index, and `IndexOut` at the array's name where there is none.
    fn item_of(&self, name: &Token, index: &ConstExpr, array: &Array) -> Result<Held, LangFault>
        ensures { Gives (λ x. x) result (item_of name.now index.now array.now (state_of self.now)) }
    {
        let value = self.value_of(index)?;
        let position = position_of(value, array).ok_or(fault_at(LangKind::IndexOut, name))?;
        let index = array.items.get(position);
        let index = *index.ok_or(fault_at(LangKind::IndexOut, name))?;
        let width = array.width;
        Ok(Held {
            worker: array.worker,
            variable: Variable { width, index },
            position: Some(position),
        })
    }

    // The item at an index of the array that a name stands for.
    fn array_item(&self, name: &Token, index: &(Token, ConstExpr)) -> Result<Held, LangFault>
        ensures { Gives (λ x. x) result (place_with name.now (Some index.now) (state_of self.now)) }
    {
        let array = as_array(self.scopes.get(bytes_of(name)));
        let array = array.ok_or(fault_at(LangKind::UnknownName, name))?;
        self.item_of(name, &index.1, array)
    }

    /// What a place stands for.
    pub fn place(&self, item: &Item) -> Result<Held, LangFault>
        ensures { Gives (λ x. x) result (place_of item.now (state_of self.now)) }
    {
        match &item.index {
            None => self.scalar(&item.name),
            Some(index) => self.array_item(&item.name, index),
        }
    }

    /// What a place on the current worker stands for.
    pub fn own_place(&self, item: &Item) -> Result<Held, LangFault>
        ensures { Gives (λ x. x) result (own_place item.now (state_of self.now)) }
    {
        let held = self.place(item)?;
        if held.worker == self.worker {
            Ok(held)
        } else {
            Err(fault_at(LangKind::WorkerDiffers, &item.name))
        }
    }

    /// The place stands for another variable, of the same width and worker.
    pub fn assign(&mut self, name: &Token, position: Option<usize>, index: u32)
        ensures { state_of self.new ≡ assigned name.now position index (state_of self.old) }
    {
        let name = bytes_of(name);
        // An array is taken out, so that it is changed where it stands.
        if let Some(old) = self.scopes.replace(name, Named::Constant(0)) {
            let _ = self.scopes.replace(name, rebound(old, position, index));
        }
    }
}

fn rebound_scalar(scalar: Scalar, position: Option<usize>, index: u32) -> Scalar
    ensures { named.Scalar result ≡ rebound position index (named.Scalar scalar) }
{
    match position {
        None => Scalar {
            worker: scalar.worker,
            variable: Variable {
                width: scalar.variable.width,
                index,
            },
        },
        Some(_) => scalar,
    }
}

fn rebound_array(array: Array, position: Option<usize>, index: u32) -> Array
    ensures { named.Array result ≡ rebound position index (named.Array array) }
{
    let mut array = array;
    match position {
        Some(position) => {
            if position < array.items.len() {
                array.items.set(position, index);
            }
        }
        None => {}
    }
    array
}
