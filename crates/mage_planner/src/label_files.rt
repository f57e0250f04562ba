// The labels of a command, in a file for each worker.
ghost use Rattle.std.specs.Prelude.{◌≡◌, ◌≤◌, ◌<◌, ◌*◌, ◌^◌, ℕ, All, true, length, IfSome};
ghost use Rattle.mage_instr.specs.Opcodes.{most_workers};
ghost use Rattle.mage_instr.specs.Sound.{IsSound};
ghost use Rattle.mage_label_files.specs.Labels.{wires_in};
ghost use Rattle.mage_lending.specs.Names.{worker_file};
ghost use Rattle.mage_solo.specs.Evaluating.{labels_in};
ghost use Rattle.mage_planner.specs.declared.refusal.Refusal.TheVariants as refusals;
ghost use Rattle.mage_planner.specs.Outcome.{bytes_or, if_labels, labels_due, labels_of};
ghost use Rattle.mage_planner.specs.Found.{File, file_at, whole_file};
ghost use Rattle.mage_planner.specs.Steps.{Gives, StepCounted, IsNoDeskFault};

use crate::Refusal;
use mage_base::{Desk, DeskError};
use mage_instr::{Instr, Program};
use mage_label::Label;
use mage_label_files::{labels_in, wires_due};
use mage_lending::worker_file;
use std::alloc::Global;

// The bytes of a worker's label file, which is to have just so many.
fn fetch_labels<D: Desk>(
    alloc: Global,
    desk: &mut D,
    stem: &str,
    worker: u16,
    length: u64,
) -> Result<Vec<u8>, Refusal>
    ensures told { IfSome (D.tells desk.old).files (λ files. Gives (D.tells desk.old).steady
        (λ bytes. bytes.items) result (bytes_or (refusals.InputLabels worker)
        (file_at files (worker_file stem.now worker) length))) }
    ensures some { (file : File) × Gives true (λ bytes. bytes.items) result
        (bytes_or (refusals.InputLabels worker) file) }
    ensures cause { StepCounted (D.tells desk.old).faults (D.tells desk.new).faults result }
    ensures rest { D.tells desk.new
        ≡ record (D.tells desk.old) { faults = (D.tells desk.new).faults } }
{
    let Ok(name) = worker_file(alloc, stem, worker) else {
        return Err(Refusal::Memory);
    };
    match desk.fetch(alloc, name.as_str(), length) {
        Ok(bytes) => Ok(bytes),
        Err(DeskError::Fault) => Err(Refusal::Desk),
        Err(DeskError::TooLong) => Err(Refusal::InputLabels { worker }),
        Err(DeskError::Memory) => Err(Refusal::Memory),
    }
}

// The labels that the bytes are, where they are just as many.
fn labels_for(alloc: Global, worker: u16, wires: u64, bytes: &[u8]) -> Result<Vec<Label>, Refusal>
    requires few { wires < 2 ^ 48 }
    ensures quiet { (faults : ℕ) → StepCounted faults faults result }
    ensures no_fault { IsNoDeskFault result }
    ensures labels { Gives true (λ labels. labels.items) result
        (if_labels wires worker bytes.now) }
{
    if bytes.len() as u64 != 16 * wires {
        return Err(Refusal::InputLabels { worker });
    }
    labels_in(alloc, wires as usize, bytes).map_err(|_| Refusal::Memory)
}

// The labels of a worker with these instructions.
#[tactic(auto, unfolding(crate::specs::Outcome::labels_due))]
fn own_labels<D: Desk>(
    alloc: Global,
    desk: &mut D,
    stem: &str,
    worker: u16,
    instrs: &[Instr],
) -> Result<Vec<Label>, Refusal>
    requires { IsSound instrs.now }
    ensures told { IfSome (D.tells desk.old).files (λ files. Gives (D.tells desk.old).steady
        (λ labels. labels.items) result (labels_due (wires_in instrs.now) worker
        (file_at files (worker_file stem.now worker) (16 * wires_in instrs.now)))) }
    ensures some { (file : File) × Gives true (λ labels. labels.items) result
        (labels_due (wires_in instrs.now) worker file) }
    ensures cause { StepCounted (D.tells desk.old).faults (D.tells desk.new).faults result }
    ensures rest { D.tells desk.new
        ≡ record (D.tells desk.old) { faults = (D.tells desk.new).faults } }
{
    let wires = wires_due(instrs);
    let bytes = fetch_labels(alloc, desk, stem, worker, 16 * wires)?;
    labels_for(alloc, worker, wires, &bytes)
}

/// The labels of each worker, in the order of the workers.
pub fn read_labels<D: Desk>(
    alloc: Global,
    desk: &mut D,
    stem: &str,
    program: &Program,
) -> Result<Vec<Vec<Label>>, Refusal>
    requires sound { All IsSound program.now.workers }
    requires few { length program.now.workers ≤ most_workers }
    ensures told { IfSome (D.tells desk.old).files (λ files. Gives (D.tells desk.old).steady
        (λ labels. labels_in labels.items) result (labels_of
        (λ worker. whole_file (files (worker_file stem.now worker))) 0 program.now.workers)) }
    ensures some { (files : ℕ → File) × Gives true (λ labels. labels_in labels.items) result
        (labels_of files 0 program.now.workers) }
    ensures cause { StepCounted (D.tells desk.old).faults (D.tells desk.new).faults result }
    ensures rest { D.tells desk.new
        ≡ record (D.tells desk.old) { faults = (D.tells desk.new).faults } }
{
    let mut labels = Vec::new(alloc);
    let mut worker = 0;
    for instrs in program.workers.as_slice() {
        let own = own_labels(alloc, desk, stem, worker, instrs.as_slice())?;
        labels.push(own).map_err(|_| Refusal::Memory)?;
        worker += 1;
    }
    Ok(labels)
}
