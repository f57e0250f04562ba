// The direct evaluator.
#![tactic(auto, unfolding(crate::specs::Run::moment_of))]

ghost use Rattle.std.specs.Prelude.{◌≡◌, [], map, replicate, IfOk, Ok};
ghost use Rattle.std.specs.Option.{option_copied};
ghost use Rattle.mage_instr.specs.declared.instr.Program.{Program};
ghost use Rattle.mage_unroll.specs.Unrolled.{unrolled_of};
ghost use Rattle.mage_meaning.specs.Means.{means_of};
ghost use Rattle.mage_meaning.specs.Run.{moment_of};
ghost use Rattle.mage_meaning.specs.Value.{worker_count, opening, value_of};

use crate::Inputs;
use crate::run::Run;
use crate::statements::{execute_all, size_of_list};
use mage_base::Memory;
use mage_constants::number_of;
use mage_lex::Token;
use mage_scopes::Scopes;
use mage_tree::Source;
use std::alloc::Global;

// The lists as slices, from which values can be taken.
fn slices(alloc: Global, lists: &[Vec<u128>]) -> Result<Vec<&[u128]>, Memory>
    ensures { IfOk result
        (λ slices. map (λ own. own.now) slices.items ≡ map (λ own. own.items) lists.now) }
{
    let mut slices = Vec::with_capacity(alloc, lists.len())?;
    for own in lists {
        slices.push(own.as_slice())?;
    }
    Ok(slices)
}

// How many workers a source has.
fn worker_count(workers: Option<&Token>) -> u128
    ensures { result ≡ worker_count (option_copied workers.entry) }
{
    match workers {
        None => 1,
        Some(number) => number_of(number),
    }
}

// An empty list for each worker.
fn no_outputs(alloc: Global, workers: u128) -> Result<Vec<Vec<u128>>, Memory>
    ensures { IfOk result (λ outputs. map (λ own. own.items) outputs.items ≡ replicate workers []) }
{
    let workers = size_of_list(workers)?;
    let mut outputs = Vec::with_capacity(alloc, workers)?;
    for _ in 0..workers {
        outputs.push(Vec::new(alloc))?;
    }
    Ok(outputs)
}

// How a run begins.
fn opening<'a>(alloc: Global, workers: u128, inputs: &'a Inputs) -> Result<Run<'a>, Memory>
    ensures { IfOk result (λ run. moment_of run ≡ opening workers inputs.now) }
{
    Ok(Run {
        alloc,
        worker: 0,
        names: Scopes::none(alloc)?,
        garbler: slices(alloc, inputs.garbler.as_slice())?,
        evaluator: slices(alloc, inputs.evaluator.as_slice())?,
        outputs: no_outputs(alloc, workers)?,
    })
}

/// Each worker's outputs, in order, by the direct meaning of the source (`value`). The program that
/// a source without a fault unrolls to means just these outputs (`same`). Where a source has a
/// fault, each step that has none of the things that it wants goes on with 0; an input value that
/// isn't given counts as 0, and one that is wider than its type is taken as it is. `Memory` is the
/// only other answer.
#[tactic(auto, unfolding(crate::specs::Run::moment_of, crate::specs::Value::value_of))]
pub fn oracle(alloc: Global, source: &Source, inputs: &Inputs) -> Result<Vec<Vec<u128>>, Memory>
    ensures value { IfOk result (λ outputs. map (λ own. own.items) outputs.items
        ≡ value_of source.now.workers source.now.body inputs.now) }
    ensures same { IfOk result (λ outputs. (program : Program) →
        unrolled_of source.now.workers source.now.body ≡ Ok program →
        means_of program inputs.now ≡ map (λ own. own.items) outputs.items) }
{
    let mut run = opening(alloc, worker_count(source.workers()), inputs)?;
    execute_all(&mut run, source.body())?;
    Ok(run.outputs)
}
