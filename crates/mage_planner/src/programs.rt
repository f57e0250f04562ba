// Memory programs of files: fetched, read and verified.
ghost use Rattle.std.specs.Prelude.{◌≡◌, ℕ, true, IfSome, IfOk};
ghost use Rattle.mage_directives.specs.Directives.{IsMemProgram};
ghost use Rattle.mage_file.specs.Grammar.{most_bytes, read_of};
ghost use Rattle.mage_planner.specs.Outcome.{bytes_or, file_refusal, long_program, or_file, program_of, verify_refusal};
ghost use Rattle.mage_planner.specs.Found.{File, file_at};
ghost use Rattle.mage_planner.specs.Steps.{Gives, StepCounted, IsNoDeskFault};

use crate::{ProgramFault, Refusal};
use mage_base::{Desk, DeskError};
use mage_file::{FileFault, read};
use mage_instr::MemProgram;
use mage_verify::VerifyFault;
use std::alloc::Global;

// The most bytes that the file of a memory program may have.
const MOST_PROGRAM_BYTES: u64 = 1_073_741_824;

// A file that is too long is refused as a whole.
fn long_program() -> Refusal
    ensures { result ≡ long_program }
{
    Refusal::MemoryProgram {
        fault: ProgramFault::TooLong,
    }
}

/// What bytes come to that spell no memory program.
pub fn of_file(fault: FileFault) -> Refusal
    ensures { result ≡ file_refusal fault }
{
    let fault = match fault {
        FileFault::Long => ProgramFault::TooLong,
        FileFault::Magic => ProgramFault::Magic,
        FileFault::Version => ProgramFault::Version,
        FileFault::Short { at } => ProgramFault::Short { at },
        FileFault::Field { at } => ProgramFault::Field { at },
        FileFault::Extra { at } => ProgramFault::Extra { at },
        FileFault::Memory => return Refusal::Memory,
    };
    Refusal::MemoryProgram { fault }
}

/// What a memory program comes to that can go wrong.
pub fn of_verifier(fault: VerifyFault) -> Refusal
    ensures { result ≡ verify_refusal fault }
{
    let fault = match fault {
        VerifyFault::Range { worker, directive } => ProgramFault::Range { worker, directive },
        VerifyFault::SlotState { worker, directive } => {
            ProgramFault::SlotState { worker, directive }
        }
        VerifyFault::PageState { worker, directive } => {
            ProgramFault::PageState { worker, directive }
        }
        VerifyFault::Width { worker, directive } => ProgramFault::Width { worker, directive },
        VerifyFault::Links { worker, directive } => ProgramFault::Links { worker, directive },
        VerifyFault::Memory => return Refusal::Memory,
    };
    Refusal::MemoryProgram { fault }
}

/// The bytes of a memory program's file, which has at most so many.
pub fn fetch_program<D: Desk>(
    alloc: Global,
    desk: &mut D,
    name: &str,
    most: u64,
) -> Result<Vec<u8>, Refusal>
    ensures told { IfSome (D.tells desk.old).files (λ files. Gives (D.tells desk.old).steady
        (λ bytes. bytes.items) result (bytes_or long_program (file_at files name.now most))) }
    ensures some { (file : File) × Gives true (λ bytes. bytes.items) result
        (bytes_or long_program file) }
    ensures cause { StepCounted (D.tells desk.old).faults (D.tells desk.new).faults result }
    ensures rest { D.tells desk.new
        ≡ record (D.tells desk.old) { faults = (D.tells desk.new).faults } }
{
    match desk.fetch(alloc, name, most) {
        Ok(bytes) => Ok(bytes),
        Err(DeskError::Fault) => Err(Refusal::Desk),
        Err(DeskError::TooLong) => Err(long_program()),
        Err(DeskError::Memory) => Err(Refusal::Memory),
    }
}

// The memory program that the bytes spell.
fn spelled(alloc: Global, bytes: &[u8]) -> Result<MemProgram, Refusal>
    ensures quiet { (faults : ℕ) → StepCounted faults faults result }
    ensures no_fault { IsNoDeskFault result }
    ensures program { Gives true (λ program. program) result (or_file (read_of bytes.now)) }
    ensures in_range { IfOk result IsMemProgram }
{
    match read(alloc, bytes) {
        Ok(program) => Ok(program),
        Err(fault) => Err(of_file(fault)),
    }
}

/// The memory program that a file spells.
#[tactic(auto, unfolding(crate::specs::Outcome::program_of))]
pub fn read_program<D: Desk>(alloc: Global, desk: &mut D, name: &str) -> Result<MemProgram, Refusal>
    ensures told { IfSome (D.tells desk.old).files (λ files. Gives (D.tells desk.old).steady
        (λ program. program) result (program_of (file_at files name.now most_bytes))) }
    ensures some { (file : File) × Gives true (λ program. program) result (program_of file) }
    ensures in_range { IfOk result IsMemProgram }
    ensures cause { StepCounted (D.tells desk.old).faults (D.tells desk.new).faults result }
    ensures rest { D.tells desk.new
        ≡ record (D.tells desk.old) { faults = (D.tells desk.new).faults } }
{
    let bytes = fetch_program(alloc, desk, name, MOST_PROGRAM_BYTES)?;
    spelled(alloc, &bytes)
}
