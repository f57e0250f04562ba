// What generated sources mean on inputs.
ghost use Rattle.mage_gen.specs.Generator.{IsOrder};

use crate::orders::{made, order, read};
use mage_base::Memory;
use mage_gen::GenOrder;
use mage_lex::LangFault;
use mage_meaning::{Inputs, oracle};
use std::alloc::Global;

// The outputs of an order's source on these inputs.
fn outputs(alloc: Global, order: GenOrder, inputs: &Inputs) -> Result<Vec<Vec<u128>>, LangFault>
    requires { IsOrder order }
{
    let made = made(alloc, order)?;
    let source = read(alloc, made.text.as_slice())?;
    Ok(oracle(alloc, &source, inputs)?)
}

// Whether the outputs, of this many workers, are this one of worker 0.
fn is_one_output(outputs: &[Vec<u128>], workers: usize, wanted: u128) -> bool {
    match outputs {
        [first, ..] => outputs.len() == workers && first.as_slice() == [wanted].as_slice(),
        _ => false,
    }
}

// This many numbers from this one on.
fn counted(alloc: Global, from: u128, count: u128) -> Result<Vec<u128>, Memory> {
    let mut numbers = Vec::new(alloc);
    for place in 0..count {
        numbers.push(from.wrapping_add(place))?;
    }
    Ok(numbers)
}

// This many ones.
fn ones(alloc: Global, count: u128) -> Result<Vec<u128>, Memory> {
    let mut numbers = Vec::new(alloc);
    for _ in 0..count {
        numbers.push(1)?;
    }
    Ok(numbers)
}

#[test]
fn multiplies_and_adds_the_made_numbers(rt: HostRuntime) -> Result<(), LangFault> {
    let alloc = rt.alloc();
    let garbler = vec![in alloc; 1013904223u128, 1196435762]?;
    let evaluator = vec![in alloc; 3519870697u128, 2868466484]?;
    let inputs = Inputs {
        garbler: vec![in alloc; garbler]?,
        evaluator: vec![in alloc; evaluator]?,
    };
    let outputs = outputs(alloc, order(2, 1, 1, 0), &inputs)?;
    assert!(rt; is_one_output(outputs.as_slice(), 1, 3704774559));
    Ok(())
}

#[test]
fn adds_what_two_workers_come_to(rt: HostRuntime) -> Result<(), LangFault> {
    let alloc = rt.alloc();
    let inputs = Inputs {
        garbler: vec![in alloc; counted(alloc, 0, 128)?, counted(alloc, 128, 128)?]?,
        evaluator: vec![in alloc; ones(alloc, 128)?, ones(alloc, 128)?]?,
    };
    let outputs = outputs(alloc, order(128, 1, 2, 0), &inputs)?;
    assert!(rt; is_one_output(outputs.as_slice(), 2, 32640));
    Ok(())
}
