// The label files that `deal` writes.
ghost use Rattle.std.specs.Prelude.{◌≡◌, ◌≤◌, ◌∷◌, [], length, codes, IsTrue, IfOk, string_bytes};
ghost use Rattle.std.specs.List.{concat};
ghost use Rattle.std.specs.Fmt.{decimal};
ghost use Rattle.mage_instr.specs.Opcodes.{most_workers};
ghost use Rattle.mage_linked.specs.Workers.{list_at};
ghost use Rattle.mage_texts.specs.Lists.{lists_of};
ghost use Rattle.mage_planner.specs.Outcome.{NewFile, label_bytes};
ghost use Rattle.mage_planner.specs.Steps.{IsNoDeskFault};
ghost use Rattle.mage_planner.specs.Work.{dealt_by, file_by};
ghost use Rattle.mage_planner.specs.Writing.{Finished, Writes};

use crate::Refusal;
use crate::files::write_file;
use crate::work::Dealing;
use mage_base::{Desk, Memory};
use mage_deal::label_file;
use std::alloc::{AllocError, Global};

// The name of a worker's label file.
fn label_name(alloc: Global, stem: &str, worker: u16) -> Result<String, AllocError>
    ensures { IfOk result (λ name.
        string_bytes name ≡ concat (stem.now ∷ codes "." ∷ decimal worker ∷ [])) }
{
    format!(in alloc; "{stem}.{worker}")
}

// The evaluator's numbers of a worker; of a worker that isn't there there are none.
fn numbers_at(numbers: &[Vec<u128>], worker: u16) -> &[u128]
    ensures { result.now ≡ list_at (lists_of numbers.now) worker }
{
    match numbers.get(usize::from(worker)) {
        Some(own) => own.as_slice(),
        None => &[],
    }
}

// The bytes of a worker's label file.
fn label_bytes(alloc: Global, dealing: &Dealing<'_>, worker: u16) -> Result<Vec<u8>, Memory>
    ensures { IfOk result (λ bytes. bytes.items ≡ label_bytes dealing.now.program dealing.now.seed
        (lists_of dealing.now.evaluator.items) worker) }
{
    let numbers = numbers_at(dealing.evaluator.as_slice(), worker);
    label_file(alloc, &dealing.program, &dealing.seed, worker, numbers)
}

// Writes the label file of a worker.
fn write_labels_of<D: Desk>(
    alloc: Global,
    desk: &mut D,
    dealing: &Dealing<'_>,
    worker: u16,
) -> Result<(), Refusal>
    ensures writes { Writes (file_by dealing.now worker ∷ []) result
        (D.tells desk.old) (D.tells desk.new) }
    ensures steady { IsTrue (D.tells desk.old).steady → IsNoDeskFault result }
{
    let Ok(name) = label_name(alloc, dealing.labels, worker) else {
        return Err(Refusal::Memory);
    };
    match label_bytes(alloc, dealing, worker) {
        Ok(bytes) => write_file(alloc, desk, name.as_str(), &bytes),
        Err(Memory) => Err(Refusal::Memory),
    }
}

// Writes the label file of each worker, in order.
fn write_labels<D: Desk>(alloc: Global, desk: &mut D, dealing: &Dealing<'_>) -> Result<(), Refusal>
    requires { length dealing.now.program.workers ≤ most_workers }
    ensures writes { Writes (dealt_by dealing.now).files result
        (D.tells desk.old) (D.tells desk.new) }
    ensures steady { IsTrue (D.tells desk.old).steady → IsNoDeskFault result }
{
    let count = dealing.program.workers.as_slice().len() as u16;
    for worker in 0..count {
        write_labels_of(alloc, desk, dealing, worker)?;
    }
    Ok(())
}

/// Deals the labels: says nothing, and writes the label file of each worker, in order.
pub fn deal_labels<D: Desk>(
    alloc: Global,
    desk: &mut D,
    dealing: &Dealing<'_>,
) -> Result<(), Refusal>
    requires { length dealing.now.program.workers ≤ most_workers }
    ensures performs { Finished (dealt_by dealing.now).said (dealt_by dealing.now).files result
        (D.tells desk.old) (D.tells desk.new) }
    ensures steady { IsTrue (D.tells desk.old).steady → IsNoDeskFault result }
{
    write_labels(alloc, desk, dealing)
}
