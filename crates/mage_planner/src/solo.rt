// `solo`: the memory program of a source, and the inputs that it is run on.
ghost use Rattle.std.specs.Prelude.{◌≡◌, ◌≤◌, ℕ, List, Ok, length, true, option_map, IfSome, IfOk};
ghost use Rattle.mage_accepted.specs.Accepting.{IsAccepted};
ghost use Rattle.mage_instr.specs.Limits.{AreInRange};
ghost use Rattle.mage_verify.specs.Parts.{parts_of};
ghost use Rattle.mage_verify.specs.Runs.{AreVerified};
ghost use Rattle.mage_words.specs.Answers.{driver_view, solo_view};
ghost use Rattle.mage_words.specs.Words as words;
ghost use Rattle.mage_planner.specs.Outcome.{solo_outcome};
ghost use Rattle.mage_planner.specs.Found.{Found, evaluator_of, found_in, garbler_of};
ghost use Rattle.mage_planner.specs.Steps.{Gives, StepCounted, IsNoDeskFault};
ghost use Rattle.mage_planner.specs.Work.{CanBeRun, GivesSo, IsRunOf};

use crate::Refusal;
use crate::inputs::read_numbers;
use crate::plan::planned;
use crate::sources::read_source;
use crate::work::Running;
use mage_base::Desk;
use mage_instr::{MemProgram, Party};
use mage_verify::{Part, verify};
use mage_words::{Driver, Solo};
use std::alloc::Global;

// The file of the garbler's input text.
fn garbler_of(driver: Driver<'_>) -> Option<&str>
    ensures { option_map (λ name. name.now) result ≡ garbler_of (driver_view driver.entry) }
{
    match driver {
        Driver::Plain { garbler, .. } => garbler,
        Driver::Garble { garbler, .. } => garbler,
        Driver::Eval { .. } => None,
    }
}

// The file of the evaluator's input text.
fn evaluator_of(driver: Driver<'_>) -> Option<&str>
    ensures { option_map (λ name. name.now) result ≡ evaluator_of (driver_view driver.entry) }
{
    match driver {
        Driver::Plain { evaluator, .. } => evaluator,
        Driver::Garble { .. } => None,
        Driver::Eval { .. } => None,
    }
}

/// The parts of a memory program that the passes made, which has no fault.
pub fn parts_of(alloc: Global, program: MemProgram) -> Result<Vec<Part>, Refusal>
    requires accepted { IsAccepted program }
    ensures quiet { (faults : ℕ) → StepCounted faults faults result }
    ensures no_fault { IsNoDeskFault result }
    ensures parts { Gives true (λ parts. parts.items) result (Ok (parts_of program)) }
    ensures verified { IfOk result (λ parts. AreVerified parts.items) }
{
    match verify(alloc, program) {
        Ok(verified) => Ok(verified.parts()),
        Err(_) => Err(Refusal::Memory),
    }
}

/// What `solo` runs, found out in the order of work.
#[tactic(auto, unfolding(crate::specs::Outcome::solo_outcome))]
pub fn solo<D: Desk>(alloc: Global, solo: Solo<'_>, desk: &mut D) -> Result<Running, Refusal>
    requires limits { AreInRange solo.limits }
    ensures told { IfSome (D.tells desk.old).files (λ files.
        GivesSo (D.tells desk.old).steady IsRunOf result
        (solo_outcome (found_in files (words.Solo (solo_view solo.entry)))
        (solo_view solo.entry))) }
    ensures some { (found : Found) × GivesSo true IsRunOf result
        (solo_outcome found (solo_view solo.entry)) }
    ensures can { IfOk result CanBeRun }
    ensures cause { StepCounted (D.tells desk.old).faults (D.tells desk.new).faults result }
    ensures rest { D.tells desk.new
        ≡ record (D.tells desk.old) { faults = (D.tells desk.new).faults } }
{
    let loaded = read_source(alloc, desk, solo.source)?;
    let planned = planned(alloc, &loaded, solo.limits)?;
    let parts = parts_of(alloc, planned.program)?;
    let garbler = garbler_of(solo.driver);
    let garbler = read_numbers(alloc, desk, garbler, &loaded, Party::Garbler)?;
    let evaluator = evaluator_of(solo.driver);
    let evaluator = read_numbers(alloc, desk, evaluator, &loaded, Party::Evaluator)?;
    Ok(Running {
        parts,
        garbler,
        evaluator,
    })
}
