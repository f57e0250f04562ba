// Orders, and what is made of them.
ghost use Rattle.std.specs.Prelude.{◌≡◌};
ghost use Rattle.mage_gen.specs.Generator.{IsOrder};

use mage_base::Memory;
use mage_gen::{GenOrder, Generated, generate};
use mage_lex::{LangFault, lex};
use mage_parser::parse;
use mage_tree::Source;
use std::alloc::Global;

// An order, by its items, rows, workers and number.
pub fn order(items: u32, rows: u32, workers: u16, number: u32) -> GenOrder
    ensures { result ≡ record { items = items; rows = rows; workers = workers; number = number } }
{
    GenOrder {
        items,
        rows,
        workers,
        number,
    }
}

// What is made of an order.
pub fn made(alloc: Global, order: GenOrder) -> Result<Generated, Memory>
    requires { IsOrder order }
{
    generate(alloc, &order)
}

// The source of a text.
pub fn read(alloc: Global, text: &[u8]) -> Result<Source, LangFault> {
    let tokens = lex(alloc, text)?;
    parse(alloc, text, &tokens)
}
