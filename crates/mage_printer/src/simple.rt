// The text of statements without blocks, and of the heads of those with blocks.
ghost use Rattle.std.specs.Prelude.{◌≡◌, ◌++◌, OnOk};
ghost use Rattle.mage_tree.specs.declared.tree.Stmt.{out-Stmt};
ghost use Rattle.mage_printer.specs.Printed.{written};
ghost use Rattle.mage_printer.specs.Made.{head_made, value_made, constant_made, input_made, let_made, array_made, assign_made, move_made, output_made, simple_made, for_made, if_made};

use crate::constants::{MOST_CONST, add_bracketed, add_const, add_index, add_item};
use crate::expressions::{MOST_EXPR, add_expr};
use crate::tokens::{add, add_symbol, add_word};
use mage_base::Memory;
use mage_lex::{Token, symbols};
use mage_tree::{ConstExpr, Expr, Item, Stmt};

// Adds a word, a name and a symbol.
#[tactic(auto, unfolding(crate::specs::Made::head_made))]
fn add_head(text: &mut Vec<u8>, word: &Token, name: &Token, row: u8) -> Result<(), Memory>
    ensures { OnOk result (text.new.items ≡ text.old.items
        ++ head_made written word.now name.now row) }
{
    add(text, word)?;
    add(text, name)?;
    add_symbol(text, row)
}

// Adds an expression and its semicolon.
#[tactic(auto, unfolding(crate::specs::Made::value_made))]
fn add_value(text: &mut Vec<u8>, value: &Expr) -> Result<(), Memory>
    ensures { OnOk result (text.new.items ≡ text.old.items ++ value_made written value.now) }
{
    add_expr(text, value, MOST_EXPR)?;
    add_symbol(text, symbols::SEMICOLON)
}

#[tactic(auto, unfolding(crate::specs::Made::constant_made))]
fn add_constant(
    text: &mut Vec<u8>,
    word: &Token,
    name: &Token,
    value: &ConstExpr,
) -> Result<(), Memory>
    ensures { OnOk result (text.new.items ≡ text.old.items
        ++ constant_made written word.now name.now value.now) }
{
    add_head(text, word, name, symbols::ASSIGN)?;
    add_const(text, value, MOST_CONST)?;
    add_symbol(text, symbols::SEMICOLON)
}

#[tactic(auto, unfolding(crate::specs::Made::input_made))]
fn add_input(
    text: &mut Vec<u8>,
    word: &Token,
    party: &Token,
    name: &Token,
    ty: &Token,
    length: &Option<(Token, ConstExpr)>,
) -> Result<(), Memory>
    ensures { OnOk result (text.new.items ≡ text.old.items
        ++ input_made written word.now party.now name.now ty.now length.now) }
{
    add(text, word)?;
    add_head(text, party, name, symbols::COLON)?;
    add(text, ty)?;
    add_index(text, length)?;
    add_symbol(text, symbols::SEMICOLON)
}

#[tactic(auto, unfolding(crate::specs::Made::let_made))]
fn add_let(text: &mut Vec<u8>, word: &Token, name: &Token, value: &Expr) -> Result<(), Memory>
    ensures { OnOk result (text.new.items ≡ text.old.items
        ++ let_made written word.now name.now value.now) }
{
    add_head(text, word, name, symbols::ASSIGN)?;
    add_value(text, value)
}

#[tactic(auto, unfolding(crate::specs::Made::array_made))]
fn add_array(
    text: &mut Vec<u8>,
    word: &Token,
    name: &Token,
    ty: &Token,
    length: &(Token, ConstExpr),
    eq: &Token,
    value: &Expr,
) -> Result<(), Memory>
    ensures { OnOk result (text.new.items ≡ text.old.items
        ++ array_made written word.now name.now ty.now length.now eq.now value.now) }
{
    add_head(text, word, name, symbols::COLON)?;
    add(text, ty)?;
    add_bracketed(text, length)?;
    add(text, eq)?;
    add_value(text, value)
}

#[tactic(auto, unfolding(crate::specs::Made::assign_made))]
fn add_assign(text: &mut Vec<u8>, place: &Item, eq: &Token, value: &Expr) -> Result<(), Memory>
    ensures { OnOk result (text.new.items ≡ text.old.items
        ++ assign_made written place.now eq.now value.now) }
{
    add_item(text, place)?;
    add(text, eq)?;
    add_value(text, value)
}

#[tactic(auto, unfolding(crate::specs::Made::move_made))]
fn add_move(text: &mut Vec<u8>, word: &Token, name: &Token, place: &Item) -> Result<(), Memory>
    ensures { OnOk result (text.new.items ≡ text.old.items
        ++ move_made written word.now name.now place.now) }
{
    add_head(text, word, name, symbols::ASSIGN)?;
    add_item(text, place)?;
    add_symbol(text, symbols::SEMICOLON)
}

#[tactic(auto, unfolding(crate::specs::Made::output_made))]
fn add_output(text: &mut Vec<u8>, word: &Token, value: &Expr) -> Result<(), Memory>
    ensures { OnOk result (text.new.items ≡ text.old.items
        ++ output_made written word.now value.now) }
{
    add(text, word)?;
    add_value(text, value)
}

// Adds a statement without blocks; of one with blocks nothing.
pub fn add_simple(text: &mut Vec<u8>, statement: &Stmt) -> Result<(), Memory>
    ensures { OnOk result (text.new.items ≡ text.old.items
        ++ simple_made written (out-Stmt statement.now)) }
{
    match statement {
        Stmt::Constant { word, name, value } => add_constant(text, word, name, value),
        Stmt::Input {
            word,
            party,
            name,
            ty,
            length,
        } => add_input(text, word, party, name, ty, length),
        Stmt::Let { word, name, value } => add_let(text, word, name, value.get()),
        Stmt::Array {
            word,
            name,
            ty,
            length,
            eq,
            value,
        } => add_array(text, word, name, ty, length, eq, value.get()),
        Stmt::Assign { place, eq, value } => add_assign(text, place, eq, value.get()),
        Stmt::Move { word, name, place } => add_move(text, word, name, place),
        Stmt::Output { word, value } => add_output(text, word, value.get()),
        Stmt::On { .. } | Stmt::For { .. } | Stmt::If { .. } => Ok(()),
    }
}

// Adds a `for` up to its block.
#[tactic(auto, unfolding(crate::specs::Made::for_made))]
pub fn add_for(
    text: &mut Vec<u8>,
    word: &Token,
    name: &Token,
    from: &ConstExpr,
    to: &ConstExpr,
) -> Result<(), Memory>
    ensures { OnOk result (text.new.items ≡ text.old.items
        ++ for_made written word.now name.now from.now to.now) }
{
    add(text, word)?;
    add(text, name)?;
    add_word(text, b"in")?;
    add_const(text, from, MOST_CONST)?;
    add_symbol(text, symbols::DOTS)?;
    add_const(text, to, MOST_CONST)
}

// Adds an `if` up to its block.
#[tactic(auto, unfolding(crate::specs::Made::if_made))]
pub fn add_if(
    text: &mut Vec<u8>,
    word: &Token,
    left: &ConstExpr,
    op: &Token,
    right: &ConstExpr,
) -> Result<(), Memory>
    ensures { OnOk result (text.new.items ≡ text.old.items
        ++ if_made written word.now left.now op.now right.now) }
{
    add(text, word)?;
    add_const(text, left, MOST_CONST)?;
    add(text, op)?;
    add_const(text, right, MOST_CONST)
}
