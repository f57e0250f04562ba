// The text of a source.
ghost use Rattle.std.specs.Prelude.{◌≡◌, ◌++◌, List, OnOk, IfOk};
ghost use Rattle.std.specs.Option.{option_copied};
ghost use Rattle.mage_lex.specs.declared.token.Token.{Token as TokenValue};
ghost use Rattle.mage_tree.specs.Sources.{MOST_DEPTH, IsSource, HasTokens, kinds_of};
ghost use Rattle.mage_printer.specs.Printed.{written, printed, HasKinds};
ghost use Rattle.mage_printer.specs.Made.{workers_made, source_made};

use crate::statements::add_stmts;
use crate::tokens::{add, add_symbol, add_word};
use mage_base::Memory;
use mage_lex::{Token, symbols};
use mage_tree::Source;
use std::alloc::Global;

// More blocks than a source within the depth has one in the other, and the source.
const MOST_STMT: u32 = 101;

// Adds the number of workers, where it is given.
#[tactic(auto, unfolding(crate::specs::Made::workers_made))]
fn add_workers(text: &mut Vec<u8>, workers: Option<&Token>) -> Result<(), Memory>
    ensures { OnOk result (text.new.items ≡ text.old.items
        ++ workers_made written (option_copied workers.entry)) }
{
    match workers {
        Some(number) => {
            add_word(text, b"workers")?;
            add(text, number)?;
            add_symbol(text, symbols::SEMICOLON)
        }
        None => Ok(()),
    }
}

// The text of a source, as its tree has it.
#[tactic(auto, unfolding(crate::specs::Made::source_made))]
fn text_of(alloc: Global, source: &Source) -> Result<Vec<u8>, Memory>
    ensures made { IfOk result (λ text. text.items
        ≡ source_made written source.now.workers source.now.body) }
    ensures tokens { HasTokens source.now.workers source.now.body }
{
    let mut text = Vec::new(alloc);
    add_workers(&mut text, source.workers())?;
    add_stmts(&mut text, source.body(), MOST_STMT)?;
    Ok(text)
}

/// The text of a source: each token followed by one space, or by a line feed after `;`, `{` and
/// `}`. A number is written by its value, in decimal digits.
///
/// `Memory` where there is none for the text. The text may be longer than the 1,048,576 bytes that
/// `lex` takes.
pub fn print(alloc: Global, source: &Source) -> Result<Vec<u8>, Memory>
    // The bytes are those of the tokens, each as it is spelled, and of what stands behind each.
    ensures bytes { (tokens : List TokenValue) →
        IsSource MOST_DEPTH source.now.workers source.now.body tokens →
        IfOk result (λ text. text.items ≡ printed tokens) }
    // The tokens of the text are those of the source, but for their places.
    ensures tokens { (tokens : List TokenValue) →
        IsSource MOST_DEPTH source.now.workers source.now.body tokens →
        IfOk result (λ text. HasKinds text.items (kinds_of tokens)) }
{
    text_of(alloc, source)
}
