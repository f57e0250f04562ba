// The text of a constant.
ghost use Rattle.std.specs.Prelude.{◌≡◌, ◌++◌, OnOk};
ghost use Rattle.mage_tree.specs.declared.tree.ConstExpr.{out-ConstExpr};
ghost use Rattle.mage_printer.specs.Printed.{written};
ghost use Rattle.mage_printer.specs.Made.{const_layer, const_made, terms_made, bracketed_made, index_made, item_made};

use crate::tokens::{add, add_symbol};
use mage_base::Memory;
use mage_lex::{Token, symbols};
use mage_tree::{ConstExpr, Item};

// More nodes than a constant within the depth has one in the other.
pub const MOST_CONST: u32 = 404;

// Adds a constant.
#[cycle(constants)]
#[tactic(auto, unfolding(crate::specs::Made::const_made))]
pub fn add_const(text: &mut Vec<u8>, value: &ConstExpr, depth: u32) -> Result<(), Memory>
    ensures { OnOk result (text.new.items ≡ text.old.items ++ const_made written depth value.now) }
{
    if depth == 0 {
        return Ok(());
    }
    add_node(text, value, depth - 1)
}

// Adds a node of a constant, and its parts to this depth.
#[cycle(constants)]
fn add_node(text: &mut Vec<u8>, value: &ConstExpr, depth: u32) -> Result<(), Memory>
    ensures { OnOk result (text.new.items
        ≡ text.old.items
        ++ const_layer written (const_made written depth) (out-ConstExpr value.now)) }
{
    match value {
        ConstExpr::Chain { first, rest } => {
            add_const(text, first.get(), depth)?;
            add_const_terms(text, rest.as_slice(), depth)
        }
        ConstExpr::Minus { op, of } => {
            add(text, op)?;
            add_const(text, of.get(), depth)
        }
        ConstExpr::Number(token) => add(text, token),
        ConstExpr::Name(token) => add(text, token),
        ConstExpr::Paren { bracket, inner } => {
            add(text, bracket)?;
            add_const(text, inner.get(), depth)?;
            add_symbol(text, symbols::CLOSE_PAREN)
        }
    }
}

// Adds operators and the constants behind them.
#[cycle(constants)]
pub fn add_const_terms(
    text: &mut Vec<u8>,
    terms: &[(Token, ConstExpr)],
    depth: u32,
) -> Result<(), Memory>
    ensures { OnOk result (text.new.items ≡ text.old.items
        ++ terms_made written (const_made written depth) terms.now) }
{
    for term in terms {
        add(text, &term.0)?;
        add_const(text, &term.1, depth)?;
    }
    Ok(())
}

// Adds an index or a length in its brackets.
#[tactic(auto, unfolding(crate::specs::Made::bracketed_made))]
pub fn add_bracketed(text: &mut Vec<u8>, index: &(Token, ConstExpr)) -> Result<(), Memory>
    ensures { OnOk result (text.new.items ≡ text.old.items ++ bracketed_made written index.now) }
{
    add(text, &index.0)?;
    add_const(text, &index.1, MOST_CONST)?;
    add_symbol(text, symbols::CLOSE_BRACKET)
}

// The same where there is one.
#[tactic(auto, unfolding(crate::specs::Made::index_made))]
pub fn add_index(text: &mut Vec<u8>, index: &Option<(Token, ConstExpr)>) -> Result<(), Memory>
    ensures { OnOk result (text.new.items ≡ text.old.items ++ index_made written index.now) }
{
    match index {
        Some(index) => add_bracketed(text, index),
        None => Ok(()),
    }
}

// Adds a place.
#[tactic(auto, unfolding(crate::specs::Made::item_made))]
pub fn add_item(text: &mut Vec<u8>, item: &Item) -> Result<(), Memory>
    ensures { OnOk result (text.new.items ≡ text.old.items ++ item_made written item.now) }
{
    add(text, &item.name)?;
    add_index(text, &item.index)
}
