// `upgrade`: a memory program of the first version, written in the second.
ghost use Rattle.std.specs.Prelude.{◌≡◌, ◌≤◌, ℕ, Ok, length, true, IfSome, IfOk};
ghost use Rattle.mage_directives.specs.Directives.{IsMemProgram};
ghost use Rattle.mage_file.specs.Grammar.{most_bytes, most_first_bytes, read_first_of, spelling_first_of, spelling_of};
ghost use Rattle.mage_words.specs.Answers.{upgrade_view};
ghost use Rattle.mage_words.specs.Words as words;
ghost use Rattle.mage_planner.specs.Outcome.{first_program_of, or_file, renamed_of, upgrade_outcome};
ghost use Rattle.mage_planner.specs.Found.{File, Found, file_at, found_in};
ghost use Rattle.mage_planner.specs.Steps.{Gives, StepCounted, IsNoDeskFault};
ghost use Rattle.mage_planner.specs.Work.{written_by};

use crate::Refusal;
use crate::programs::{fetch_program, of_file, of_verifier};
use crate::work::Writing;
use mage_base::Desk;
use mage_file::{read_first, write};
use mage_instr::MemProgram;
use mage_rehome::rehome;
use mage_verify::verify;
use mage_words::Upgrade;
use std::alloc::Global;

// The most bytes that the file of a memory program of the first version may have.
const MOST_FIRST_BYTES: u64 = 1_073_741_760;

// The memory program that the bytes of the first version spell.
fn spelled_first(alloc: Global, bytes: &[u8]) -> Result<MemProgram, Refusal>
    ensures quiet { (faults : ℕ) → StepCounted faults faults result }
    ensures no_fault { IsNoDeskFault result }
    ensures program { Gives true (λ program. program) result (or_file (read_first_of bytes.now)) }
    ensures fields { IfOk result IsMemProgram }
    ensures short { IfOk result (λ program.
        length (spelling_first_of program) ≤ most_first_bytes) }
{
    match read_first(alloc, bytes) {
        Ok(program) => Ok(program),
        Err(fault) => Err(of_file(fault)),
    }
}

// The memory program that a file of the first version spells.
#[tactic(auto, unfolding(crate::specs::Outcome::first_program_of))]
fn read_first_program<D: Desk>(
    alloc: Global,
    desk: &mut D,
    name: &str,
) -> Result<MemProgram, Refusal>
    ensures told { IfSome (D.tells desk.old).files (λ files. Gives (D.tells desk.old).steady
        (λ program. program) result (first_program_of (file_at files name.now most_first_bytes))) }
    ensures some { (file : File) × Gives true (λ program. program) result (first_program_of file) }
    ensures fields { IfOk result IsMemProgram }
    ensures short { IfOk result (λ program.
        length (spelling_first_of program) ≤ most_first_bytes) }
    ensures cause { StepCounted (D.tells desk.old).faults (D.tells desk.new).faults result }
    ensures rest { D.tells desk.new
        ≡ record (D.tells desk.old) { faults = (D.tells desk.new).faults } }
{
    let bytes = fetch_program(alloc, desk, name, MOST_FIRST_BYTES)?;
    spelled_first(alloc, &bytes)
}

// The memory program with store pages, where it has no fault.
fn renamed(alloc: Global, program: MemProgram) -> Result<MemProgram, Refusal>
    requires fields { IsMemProgram program }
    requires short { length (spelling_first_of program) ≤ most_first_bytes }
    ensures quiet { (faults : ℕ) → StepCounted faults faults result }
    ensures no_fault { IsNoDeskFault result }
    ensures program { Gives true (λ program. program) result (renamed_of program) }
    ensures fields { IfOk result IsMemProgram }
    ensures short { IfOk result (λ program. length (spelling_of program) ≤ most_bytes) }
{
    match verify(alloc, program) {
        Ok(verified) => {
            let Ok(renamed) = rehome(alloc, verified) else {
                return Err(Refusal::Memory);
            };
            Ok(renamed)
        }
        Err(fault) => Err(of_verifier(fault)),
    }
}

// The bytes of its file.
fn spelled(alloc: Global, program: &MemProgram) -> Result<Vec<u8>, Refusal>
    requires fields { IsMemProgram program.now }
    requires short { length (spelling_of program.now) ≤ most_bytes }
    ensures quiet { (faults : ℕ) → StepCounted faults faults result }
    ensures no_fault { IsNoDeskFault result }
    ensures bytes { Gives true (λ bytes. bytes.items) result (Ok (spelling_of program.now)) }
{
    write(alloc, program).map_err(|_| Refusal::Memory)
}

/// What `upgrade` writes, found out in the order of work.
#[tactic(auto, unfolding(crate::specs::Outcome::upgrade_outcome))]
pub fn upgrade<'a, D: Desk>(
    alloc: Global,
    upgrade: Upgrade<'a>,
    desk: &mut D,
) -> Result<Writing<'a>, Refusal>
    ensures told { IfSome (D.tells desk.old).files (λ files. Gives (D.tells desk.old).steady
        written_by result
        (upgrade_outcome (found_in files (words.Upgrade (upgrade_view upgrade.entry)))
        (upgrade_view upgrade.entry))) }
    ensures some { (found : Found) × Gives true written_by result
        (upgrade_outcome found (upgrade_view upgrade.entry)) }
    ensures cause { StepCounted (D.tells desk.old).faults (D.tells desk.new).faults result }
    ensures rest { D.tells desk.new
        ≡ record (D.tells desk.old) { faults = (D.tells desk.new).faults } }
{
    let program = read_first_program(alloc, desk, upgrade.program)?;
    let program = renamed(alloc, program)?;
    let bytes = spelled(alloc, &program)?;
    Ok(Writing {
        name: upgrade.out,
        bytes,
        text: Vec::new(alloc),
    })
}
