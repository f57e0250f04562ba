// A source and its inputs.
ghost use Rattle.std.specs.Prelude.{◌≡◌, ◌≤◌, ◌*◌, ◌+◌, IfOk, IsTrue};
ghost use Rattle.std.specs.String.{string_bytes};
ghost use Rattle.mage_gen.specs.Generator.{IsOrder, garbler_count, evaluator_count, has_inputs, garbler_text, evaluator_text};
ghost use Rattle.mage_gen.specs.Source.{source_text};

use crate::inputs::add_lines;
use crate::order::{GenOrder, Generated};
use crate::source::source_of;
use mage_base::Memory;
use std::alloc::Global;

// The most values of both parties together.
const MOST_VALUES: u32 = 2000000;

// How many values the garbler has.
fn garbler_count(order: &GenOrder) -> u32
    requires { IsOrder order.now }
    ensures exact { result ≡ garbler_count order.now }
    ensures most { result ≤ 1048576 }
{
    u32::from(order.workers) * order.items
}

// How many values the evaluator has.
fn evaluator_count(order: &GenOrder) -> u32
    requires { IsOrder order.now }
    ensures exact { result ≡ evaluator_count order.now }
    ensures most { result ≤ 1073741824 }
{
    u32::from(order.workers) * (order.rows * order.items)
}

// The text of a source and the texts of its inputs.
struct Inputs {
    garbler: String,
    evaluator: String,
}

// The input texts.
fn inputs_of(alloc: Global, order: &GenOrder) -> Result<Inputs, Memory>
    requires { IsOrder order.now }
    ensures garbler { IfOk result (λ inputs. string_bytes inputs.garbler ≡ garbler_text order.now) }
    ensures evaluator { IfOk result (λ inputs. string_bytes inputs.evaluator ≡ evaluator_text order.now) }
{
    let mut garbler = String::new(alloc);
    let mut evaluator = String::new(alloc);
    let own = garbler_count(order);
    let other = evaluator_count(order);
    if own + other <= MOST_VALUES {
        let last = add_lines(&mut garbler, order.number, own)?;
        add_lines(&mut evaluator, last, other)?;
    }
    Ok(Inputs { garbler, evaluator })
}

/// A source for an order, and its input texts.
///
/// The source has, for each row, the sum over all items of the garbler's number times the evaluator's, modulo 2 to 32.
/// Each worker has `items` numbers of the garbler, and as many of the evaluator in each row. Its text is laid out as a
/// source is printed.
///
/// An input text has one number a line. The garbler's are the first numbers after `order.number`, worker 0's first, and the
/// evaluator's come next, by worker and then by row. With more than 2,000,000 numbers in all the source is too long to
/// unroll, and the input texts are empty.
///
/// `Memory` where there is none for the texts. That the text is a source isn't said here, nor what it means.
pub fn generate(alloc: Global, order: &GenOrder) -> Result<Generated, Memory>
    requires { IsOrder order.now }
    ensures text { IfOk result (λ made. made.text.items ≡ source_text order.now) }
    ensures garbler { IfOk result (λ made. made.garbler.items ≡ garbler_text order.now) }
    ensures evaluator { IfOk result (λ made. made.evaluator.items ≡ evaluator_text order.now) }
{
    let text = source_of(alloc, *order)?;
    let Inputs { garbler, evaluator } = inputs_of(alloc, order)?;
    Ok(Generated {
        text: text.into_bytes(),
        garbler: garbler.into_bytes(),
        evaluator: evaluator.into_bytes(),
    })
}
