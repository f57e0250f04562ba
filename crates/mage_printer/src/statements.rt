// The text of statements.
ghost use Rattle.std.specs.Prelude.{◌≡◌, ◌++◌, OnOk};
ghost use Rattle.std.specs.List.{flat_map};
ghost use Rattle.mage_tree.specs.declared.tree.Stmt.{out-Stmt};
ghost use Rattle.mage_printer.specs.Printed.{written};
ghost use Rattle.mage_printer.specs.Made.{stmt_layer, stmt_made, block_made, else_made};

use crate::constants::{MOST_CONST, add_const};
use crate::simple::{add_for, add_if, add_simple};
use crate::tokens::{add, add_symbol, add_word};
use mage_base::Memory;
use mage_lex::symbols;
use mage_tree::Stmt;
use sqlite_items::Items;

// Adds a statement.
#[cycle(statements)]
#[tactic(auto, unfolding(crate::specs::Made::stmt_made))]
fn add_stmt(text: &mut Vec<u8>, statement: &Stmt, depth: u32) -> Result<(), Memory>
    ensures { OnOk result (text.new.items ≡ text.old.items
        ++ stmt_made written depth statement.now) }
{
    if depth == 0 {
        return Ok(());
    }
    add_node(text, statement, depth - 1)
}

// Adds a node of a statement, and its parts to this depth.
#[cycle(statements)]
fn add_node(text: &mut Vec<u8>, statement: &Stmt, depth: u32) -> Result<(), Memory>
    ensures { OnOk result (text.new.items
        ≡ text.old.items ++ stmt_layer written (stmt_made written depth) (out-Stmt statement.now)) }
{
    match statement {
        Stmt::On { word, worker, body } => {
            add(text, word)?;
            add_const(text, worker, MOST_CONST)?;
            add_block(text, body.as_slice(), depth)
        }
        Stmt::For {
            word,
            name,
            from,
            to,
            body,
        } => {
            add_for(text, word, name, from, to)?;
            add_block(text, body.as_slice(), depth)
        }
        Stmt::If {
            word,
            left,
            op,
            right,
            yes,
            no,
        } => {
            add_if(text, word, left, op, right)?;
            add_block(text, yes.as_slice(), depth)?;
            add_else(text, no, depth)
        }
        _ => add_simple(text, statement),
    }
}

// Adds a block.
#[cycle(statements)]
#[tactic(auto, unfolding(crate::specs::Made::block_made))]
fn add_block(text: &mut Vec<u8>, body: &[Stmt], depth: u32) -> Result<(), Memory>
    ensures { OnOk result (text.new.items ≡ text.old.items
        ++ block_made written (stmt_made written depth) body.now) }
{
    add_symbol(text, symbols::OPEN_BRACE)?;
    add_stmts(text, body, depth)?;
    add_symbol(text, symbols::CLOSE_BRACE)
}

// Adds `else` and its block, where there is one.
#[cycle(statements)]
#[tactic(auto, unfolding(crate::specs::Made::else_made))]
fn add_else(text: &mut Vec<u8>, body: &Option<Items<Stmt>>, depth: u32) -> Result<(), Memory>
    ensures { OnOk result (text.new.items ≡ text.old.items
        ++ else_made written (stmt_made written depth) body.now) }
{
    match body {
        Some(body) => {
            add_word(text, b"else")?;
            add_block(text, body.as_slice(), depth)
        }
        None => Ok(()),
    }
}

// Adds statements.
#[cycle(statements)]
pub fn add_stmts(text: &mut Vec<u8>, body: &[Stmt], depth: u32) -> Result<(), Memory>
    ensures { OnOk result (text.new.items ≡ text.old.items
        ++ flat_map (stmt_made written depth) body.now) }
{
    for statement in body {
        add_stmt(text, statement, depth)?;
    }
    Ok(())
}
