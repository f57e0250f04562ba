// `plan`: the memory program of a source.
ghost use Rattle.std.specs.Prelude.{◌≡◌, ◌≤◌, ◌*◌, ℕ, List, Ok, true, IfSome, IfOk};
ghost use Rattle.mage_accepted.specs.Accepting.{IsAccepted, directives_in};
ghost use Rattle.mage_file.specs.Grammar.{spelling_of};
ghost use Rattle.mage_instr.specs.Limits.{AreInRange};
ghost use Rattle.mage_schedulable.specs.PlanOf.{IsPlanOf};
ghost use Rattle.mage_unroll.specs.Limits.{MOST_INSTRS};
ghost use Rattle.mage_pipe.specs.Loading.{loaded_of};
ghost use Rattle.mage_words.specs.Answers.{plan_view};
ghost use Rattle.mage_words.specs.Words as words;
ghost use Rattle.mage_planner.specs.Outcome.{costs_of, plan_outcome, program_for};
ghost use Rattle.mage_planner.specs.Found.{Found, found_in};
ghost use Rattle.mage_planner.specs.Steps.{Gives, StepCounted, IsNoDeskFault};
ghost use Rattle.mage_planner.specs.Work.{written_by};

use crate::Refusal;
use crate::sources::{of_plan, read_source};
use crate::stats::summary_text;
use crate::work::Writing;
use mage_base::Desk;
use mage_file::write;
use mage_instr::{Limits, MemProgram};
use mage_pipe::{Loaded, Planned};
use mage_words::Plan;
use std::alloc::Global;

/// The memory program of a source, and what it costs.
pub fn planned(alloc: Global, loaded: &Loaded, limits: Limits) -> Result<Planned, Refusal>
    requires loaded { (text : List ℕ) × (loaded_of text ≡ Ok loaded.now) }
    requires limits { AreInRange limits }
    ensures quiet { (faults : ℕ) → StepCounted faults faults result }
    ensures no_fault { IsNoDeskFault result }
    ensures program { Gives true (λ planned. planned.program) result
        (program_for limits loaded.now) }
    ensures costs { IfOk result (λ planned. costs_of limits loaded.now ≡ Ok planned.stats.items) }
    ensures is_plan { IfOk result (λ planned. IsPlanOf limits loaded.now.program planned.program) }
    ensures accepted { IfOk result (λ planned. IsAccepted planned.program) }
    ensures short { IfOk result (λ planned. directives_in planned.program ≤ 18 * MOST_INSTRS) }
{
    match mage_pipe::planned(alloc, loaded, limits) {
        Ok(planned) => Ok(planned),
        Err(fault) => Err(of_plan(fault)),
    }
}

// The bytes of a memory program's file.
fn spelled(alloc: Global, program: &MemProgram) -> Result<Vec<u8>, Refusal>
    requires accepted { IsAccepted program.now }
    requires short { directives_in program.now ≤ 18 * MOST_INSTRS }
    ensures quiet { (faults : ℕ) → StepCounted faults faults result }
    ensures no_fault { IsNoDeskFault result }
    ensures bytes { Gives true (λ bytes. bytes.items) result (Ok (spelling_of program.now)) }
{
    write(alloc, program).map_err(|_| Refusal::Memory)
}

/// What `plan` writes and says, found out in the order of work.
#[tactic(auto, unfolding(crate::specs::Outcome::plan_outcome))]
pub fn plan<'a, D: Desk>(
    alloc: Global,
    plan: Plan<'a>,
    desk: &mut D,
) -> Result<Writing<'a>, Refusal>
    requires limits { AreInRange plan.limits }
    ensures told { IfSome (D.tells desk.old).files (λ files. Gives (D.tells desk.old).steady
        written_by result
        (plan_outcome (found_in files (words.Plan (plan_view plan.entry)))
        (plan_view plan.entry))) }
    ensures some { (found : Found) × Gives true written_by result
        (plan_outcome found (plan_view plan.entry)) }
    ensures cause { StepCounted (D.tells desk.old).faults (D.tells desk.new).faults result }
    ensures rest { D.tells desk.new
        ≡ record (D.tells desk.old) { faults = (D.tells desk.new).faults } }
{
    let loaded = read_source(alloc, desk, plan.source)?;
    let planned = planned(alloc, &loaded, plan.limits)?;
    let bytes = spelled(alloc, &planned.program)?;
    let text = summary_text(alloc, &planned.stats)?;
    Ok(Writing {
        name: plan.out,
        bytes,
        text,
    })
}
