// `check`: whether a memory program carries a source's program.
ghost use Rattle.std.specs.Prelude.{◌≡◌, ◌≤◌, ℕ, Ok, length, true, All, IfSome};
ghost use Rattle.mage_directives.specs.Directives.{IsMemProgram};
ghost use Rattle.mage_instr.specs.Opcodes.{most_workers};
ghost use Rattle.mage_instr.specs.Sound.{IsSound};
ghost use Rattle.mage_words.specs.Answers.{check_view};
ghost use Rattle.mage_words.specs.Words as words;
ghost use Rattle.mage_planner.specs.Outcome.{carried_or, carry_of, check_outcome, says};
ghost use Rattle.mage_planner.specs.Found.{Found, found_in};
ghost use Rattle.mage_planner.specs.Steps.{Gives, StepCounted, IsNoDeskFault};

use crate::Refusal;
use crate::programs::{of_verifier, read_program};
use crate::sources::read_source;
use mage_base::Desk;
use mage_carry::{Carry, carries};
use mage_instr::{MemProgram, Program};
use mage_verify::verify;
use mage_words::Check;
use std::alloc::Global;

// Whether a memory program without a fault carries the program.
fn carried(alloc: Global, program: &Program, plan: MemProgram) -> Result<Carry, Refusal>
    requires sound { All IsSound program.now.workers }
    requires few { length program.now.workers ≤ most_workers }
    requires in_range { IsMemProgram plan }
    ensures quiet { (faults : ℕ) → StepCounted faults faults result }
    ensures no_fault { IsNoDeskFault result }
    ensures carry { Gives true (λ carry. carry) result (carry_of program.now plan) }
{
    let carry = carries(alloc, program, &plan).map_err(|_| Refusal::Memory)?;
    match verify(alloc, plan) {
        Ok(_) => Ok(carry),
        Err(fault) => Err(of_verifier(fault)),
    }
}

// What is said of it.
fn carry_text(alloc: Global, carry: Carry) -> Result<Vec<u8>, Refusal>
    ensures quiet { (faults : ℕ) → StepCounted faults faults result }
    ensures no_fault { IsNoDeskFault result }
    ensures text { Gives true (λ text. says text.items) result (carried_or carry) }
{
    match carry {
        Carry::Yes => {
            let mut text = Vec::new(alloc);
            text.extend_from_slice(b"carries\n")
                .map_err(|_| Refusal::Memory)?;
            Ok(text)
        }
        Carry::No { worker, directive } => Err(Refusal::CheckNo { worker, directive }),
    }
}

/// What `check` says, found out in the order of work.
#[tactic(auto, unfolding(crate::specs::Outcome::check_outcome))]
pub fn check<D: Desk>(alloc: Global, check: Check<'_>, desk: &mut D) -> Result<Vec<u8>, Refusal>
    ensures told { IfSome (D.tells desk.old).files (λ files. Gives (D.tells desk.old).steady
        (λ text. says text.items) result
        (check_outcome (found_in files (words.Check (check_view check.entry)))
        (check_view check.entry))) }
    ensures some { (found : Found) × Gives true (λ text. says text.items) result
        (check_outcome found (check_view check.entry)) }
    ensures cause { StepCounted (D.tells desk.old).faults (D.tells desk.new).faults result }
    ensures rest { D.tells desk.new
        ≡ record (D.tells desk.old) { faults = (D.tells desk.new).faults } }
{
    let loaded = read_source(alloc, desk, check.source)?;
    let plan = read_program(alloc, desk, check.program)?;
    let carry = carried(alloc, &loaded.program, plan)?;
    carry_text(alloc, carry)
}
