// The text of an expression.
ghost use Rattle.std.specs.Prelude.{◌≡◌, ◌++◌, OnOk};
ghost use Rattle.mage_lex.specs.declared.token.TokenKind.{TokenKind};
ghost use Rattle.mage_lex.specs.Symbols.{OPEN_PAREN, CLOSE_PAREN};
ghost use Rattle.mage_tree.specs.declared.tree.Expr.{out-Expr};
ghost use Rattle.mage_printer.specs.Printed.{written};
ghost use Rattle.mage_printer.specs.Made.{CONST_NODES, head_made, call_made, const_made, expr_layer, expr_made, terms_made, args_made, more_args_made};

use crate::constants::{MOST_CONST, add_const, add_const_terms, add_item};
use crate::tokens::{add, add_symbol};
use mage_base::Memory;
use mage_lex::{Token, symbols};
use mage_tree::{ConstExpr, Expr};

// More nodes than an expression within the depth has one in the other.
pub const MOST_EXPR: u32 = 808;

// Adds a word, a type and an opening bracket.
#[tactic(auto, unfolding(crate::specs::Made::head_made))]
fn add_typed(text: &mut Vec<u8>, word: &Token, ty: &Token) -> Result<(), Memory>
    ensures { OnOk result (text.new.items ≡ text.old.items ++ head_made written word.now ty.now 7) }
{
    add(text, word)?;
    add(text, ty)?;
    add_symbol(text, symbols::OPEN_PAREN)
}

// Adds a `lit`.
fn add_lit(text: &mut Vec<u8>, word: &Token, ty: &Token, value: &ConstExpr) -> Result<(), Memory>
    ensures { OnOk result (text.new.items ≡ text.old.items
        ++ (head_made written word.now ty.now OPEN_PAREN ++ const_made written CONST_NODES value.now
        ++ written (TokenKind.Symbol CLOSE_PAREN))) }
{
    add_typed(text, word, ty)?;
    add_const(text, value, MOST_CONST)?;
    add_symbol(text, symbols::CLOSE_PAREN)
}

// Adds an expression.
#[cycle(expressions)]
#[tactic(auto, unfolding(crate::specs::Made::expr_made))]
pub fn add_expr(text: &mut Vec<u8>, value: &Expr, depth: u32) -> Result<(), Memory>
    ensures { OnOk result (text.new.items ≡ text.old.items ++ expr_made written depth value.now) }
{
    if depth == 0 {
        return Ok(());
    }
    add_node(text, value, depth - 1)
}

// Adds a node of an expression, and its parts to this depth.
#[cycle(expressions)]
fn add_node(text: &mut Vec<u8>, value: &Expr, depth: u32) -> Result<(), Memory>
    ensures { OnOk result (text.new.items ≡ text.old.items
        ++ expr_layer written (expr_made written depth) (out-Expr value.now)) }
{
    match value {
        Expr::Chain { first, rest } => {
            add_expr(text, first.get(), depth)?;
            add_terms(text, rest.as_slice(), depth)
        }
        Expr::Shift { first, rest } => {
            add_expr(text, first.get(), depth)?;
            add_const_terms(text, rest.as_slice(), MOST_CONST)
        }
        Expr::Not { op, of } => {
            add(text, op)?;
            add_expr(text, of.get(), depth)
        }
        Expr::Item(item) => add_item(text, item),
        Expr::Paren { bracket, inner } => {
            add(text, bracket)?;
            add_expr(text, inner.get(), depth)?;
            add_symbol(text, symbols::CLOSE_PAREN)
        }
        Expr::Lit { word, ty, value } => add_lit(text, word, ty, value),
        Expr::Resize { word, ty, of } => {
            add_typed(text, word, ty)?;
            add_expr(text, of.get(), depth)?;
            add_symbol(text, symbols::CLOSE_PAREN)
        }
        Expr::Mux { word, args } => add_call(text, word, args.as_slice(), depth),
        Expr::Call { word, args } => add_call(text, word, args.as_slice(), depth),
    }
}

// Adds operators and the expressions behind them.
#[cycle(expressions)]
fn add_terms(text: &mut Vec<u8>, terms: &[(Token, Expr)], depth: u32) -> Result<(), Memory>
    ensures { OnOk result (text.new.items ≡ text.old.items
        ++ terms_made written (expr_made written depth) terms.now) }
{
    for term in terms {
        add(text, &term.0)?;
        add_expr(text, &term.1, depth)?;
    }
    Ok(())
}

// Adds a word and its arguments in brackets.
#[cycle(expressions)]
fn add_call(text: &mut Vec<u8>, word: &Token, args: &[Expr], depth: u32) -> Result<(), Memory>
    ensures { OnOk result (text.new.items
        ≡ text.old.items ++ call_made written (expr_made written depth) word.now args.now) }
{
    add(text, word)?;
    add_symbol(text, symbols::OPEN_PAREN)?;
    add_args(text, args, depth)?;
    add_symbol(text, symbols::CLOSE_PAREN)
}

// Adds arguments with commas between them.
#[cycle(expressions)]
fn add_args(text: &mut Vec<u8>, args: &[Expr], depth: u32) -> Result<(), Memory>
    ensures { OnOk result (text.new.items ≡ text.old.items
        ++ args_made written (expr_made written depth) args.now) }
{
    match args.split_first() {
        Some((first, rest)) => {
            add_expr(text, first, depth)?;
            add_more_args(text, rest, depth)
        }
        None => Ok(()),
    }
}

// Adds arguments with a comma before each.
#[cycle(expressions)]
fn add_more_args(text: &mut Vec<u8>, args: &[Expr], depth: u32) -> Result<(), Memory>
    ensures { OnOk result (text.new.items ≡ text.old.items
        ++ more_args_made written (expr_made written depth) args.now) }
{
    for arg in args {
        add_symbol(text, symbols::COMMA)?;
        add_expr(text, arg, depth)?;
    }
    Ok(())
}
