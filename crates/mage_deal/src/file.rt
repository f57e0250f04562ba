// The label file of a worker.
ghost use Rattle.std.specs.Prelude.{◌≡◌, ◌<◌, ◌^◌, ◌++◌, ◌∷◌, ℕ, List, IfOk};
ghost use Rattle.mage_instr.specs.declared.instr.Instr.{Instr};
ghost use Rattle.mage_instr.specs.Inputs.{is_input};
ghost use Rattle.mage_streams.specs.Garbling.{bytes_of};
ghost use Rattle.mage_streams.specs.Streams.{dealt_labels};
ghost use Rattle.mage_deal.specs.Dealing.{all_labels, new_dealer};

use crate::inputs::{NUMBERS, add_active, behind_first, next_value};
use crate::instrs::own_instrs;
use mage_base::Memory;
use mage_instr::{Instr, Op, Program};
use std::alloc::Global;

// Where a worker's dealer stands: how many input wires there were, and the evaluator's values that are still to come.
#[derive(Clone, Copy)]
struct Place<'a> {
    wires: u64,
    values: &'a [u128],
}

// Whether the instruction is an input.
fn is_input(instr: &Instr) -> bool
    ensures { result ≡ is_input instr.now.op }
{
    matches!(instr.op, Op::Input)
}

// Adds the labels of an instruction, and tells the place behind it.
fn add_labels<'a>(
    bytes: &mut Vec<u8>,
    seed: &[u8; 32],
    worker: u16,
    place: Place<'a>,
    instr: &Instr,
) -> Result<Place<'a>, Memory>
    requires { place.wires < 2 ^ 63 }
    ensures labels { (others : List Instr) → IfOk result (λ next.
        bytes.new.items ++ bytes_of (all_labels (record {
          seed = seed.now;
          worker = worker;
          wires = next.wires;
          values = next.values.now;
        }) others)
        ≡ bytes.old.items ++ bytes_of (all_labels (record {
          seed = seed.now;
          worker = worker;
          wires = place.entry.wires;
          values = place.entry.values.now;
        }) (instr.now ∷ others))) }
    ensures few { IfOk result (λ next. next.wires < 2 ^ 63) }
{
    if !is_input(instr) {
        return Ok(place);
    }
    let wires = (place.wires + u64::from(instr.width)) % NUMBERS;
    if instr.imm == 0 {
        return Ok(Place {
            wires,
            values: place.values,
        });
    }
    let value = next_value(place.values);
    add_active(bytes, seed, worker, place.wires, instr.width, value)?;
    Ok(Place {
        wires,
        values: behind_first(place.values),
    })
}

// The labels of a worker's instructions.
fn labels_of(
    alloc: Global,
    seed: &[u8; 32],
    worker: u16,
    values: &[u128],
    instrs: &[Instr],
) -> Result<Vec<u8>, Memory>
    ensures { IfOk result (λ bytes. bytes.items
        ≡ bytes_of (all_labels (new_dealer seed.now worker values.now) instrs.now)) }
{
    let mut bytes = Vec::new(alloc);
    let mut place = Place { wires: 0, values };
    for instr in instrs {
        place = add_labels(&mut bytes, seed, worker, place, instr)?;
    }
    Ok(bytes)
}

/// The bytes of a worker's label file: the active labels of its evaluator's input wires, in order, where these are the
/// evaluator's values for the worker. `Memory` where there is none for the bytes.
pub fn label_file(
    alloc: Global,
    program: &Program,
    seed: &[u8; 32],
    worker: u16,
    values: &[u128],
) -> Result<Vec<u8>, Memory>
    ensures { (garbler evaluator : ℕ → List ℕ) → evaluator worker ≡ values.now → IfOk result
        (λ bytes. bytes.items
        ≡ bytes_of (dealt_labels program.now seed.now garbler evaluator worker)) }
{
    labels_of(alloc, seed, worker, values, own_instrs(program, worker))
}
