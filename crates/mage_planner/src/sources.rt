// The source of a command: fetched, read and planned.
ghost use Rattle.std.specs.Prelude.{◌≡◌, ◌≤◌, ℕ, List, Ok, true, length, All, IfSome, IfOk};
ghost use Rattle.mage_instr.specs.Limits.{AreInRange};
ghost use Rattle.mage_instr.specs.Opcodes.{most_workers};
ghost use Rattle.mage_instr.specs.Sound.{IsSound};
ghost use Rattle.mage_lex.specs.Limits.{MOST_BYTES};
ghost use Rattle.mage_pipe.specs.Loading.{loaded_of};
ghost use Rattle.mage_planner.specs.Outcome.{bytes_or, or_language, lang_refusal, plan_refusal, long_source, source_of, costs_of};
ghost use Rattle.mage_planner.specs.Found.{File, file_at};
ghost use Rattle.mage_planner.specs.Steps.{Gives, StepCounted, IsNoDeskFault};

use crate::Refusal;
use mage_base::{Desk, DeskError};
use mage_instr::Limits;
use mage_lex::{LangFault, LangKind};
use mage_pipe::{Loaded, PlanFault, WorkerStats, load, program_stats};
use std::alloc::Global;

// The most bytes that a source may have.
const MOST_SOURCE_BYTES: u64 = 1_048_576;

// A source that is too long is refused as a whole.
fn long_source() -> Refusal
    ensures { result ≡ long_source }
{
    Refusal::Language {
        kind: LangKind::TooLong,
        line: 0,
        column: 0,
    }
}

fn of_language(fault: LangFault) -> Refusal
    ensures { result ≡ lang_refusal fault }
{
    match fault {
        LangFault::At { kind, line, column } => Refusal::Language { kind, line, column },
        LangFault::Memory => Refusal::Memory,
    }
}

/// What a fault of a plan comes to.
pub fn of_plan(fault: PlanFault) -> Refusal
    ensures { result ≡ plan_refusal fault }
{
    match fault {
        PlanFault::Lang(fault) => of_language(fault),
        PlanFault::Tight { worker, tight } => Refusal::Limits { worker, tight },
        PlanFault::Memory => Refusal::Memory,
    }
}

// The bytes of a source's file.
fn fetch_source<D: Desk>(alloc: Global, desk: &mut D, name: &str) -> Result<Vec<u8>, Refusal>
    ensures told { IfSome (D.tells desk.old).files (λ files. Gives (D.tells desk.old).steady
        (λ bytes. bytes.items) result (bytes_or long_source (file_at files name.now MOST_BYTES))) }
    ensures some { (file : File) × Gives true (λ bytes. bytes.items) result
        (bytes_or long_source file) }
    ensures cause { StepCounted (D.tells desk.old).faults (D.tells desk.new).faults result }
    ensures rest { D.tells desk.new
        ≡ record (D.tells desk.old) { faults = (D.tells desk.new).faults } }
{
    match desk.fetch(alloc, name, MOST_SOURCE_BYTES) {
        Ok(bytes) => Ok(bytes),
        Err(DeskError::Fault) => Err(Refusal::Desk),
        Err(DeskError::TooLong) => Err(long_source()),
        Err(DeskError::Memory) => Err(Refusal::Memory),
    }
}

/// The tree of a text, and the program that it unrolls to.
pub fn loaded(alloc: Global, text: &[u8]) -> Result<Loaded, Refusal>
    ensures loaded { Gives true (λ loaded. loaded) result (or_language (loaded_of text.now)) }
    ensures read { IfOk result (λ loaded. loaded_of text.now ≡ Ok loaded) }
    ensures sound { IfOk result (λ loaded. All IsSound loaded.program.workers) }
    ensures few { IfOk result (λ loaded. length loaded.program.workers ≤ most_workers) }
    ensures quiet { (faults : ℕ) → StepCounted faults faults result }
    ensures no_fault { IsNoDeskFault result }
{
    match load(alloc, text) {
        Ok(loaded) => Ok(loaded),
        Err(fault) => Err(of_language(fault)),
    }
}

/// What a plan for the program costs, worker by worker.
pub fn costs(alloc: Global, loaded: &Loaded, limits: Limits) -> Result<Vec<WorkerStats>, Refusal>
    requires sound { All IsSound loaded.now.program.workers }
    requires few { length loaded.now.program.workers ≤ most_workers }
    requires limits { AreInRange limits }
    ensures costs { Gives true (λ costs. costs.items) result (costs_of limits loaded.now) }
    ensures quiet { (faults : ℕ) → StepCounted faults faults result }
    ensures no_fault { IsNoDeskFault result }
{
    match program_stats(alloc, &loaded.program, limits) {
        Ok(stats) => Ok(stats),
        Err(fault) => Err(of_plan(fault)),
    }
}

/// The tree of the source that a file has, and the program that it unrolls to.
#[tactic(auto, unfolding(crate::specs::Outcome::source_of))]
pub fn read_source<D: Desk>(alloc: Global, desk: &mut D, name: &str) -> Result<Loaded, Refusal>
    ensures told { IfSome (D.tells desk.old).files (λ files. Gives (D.tells desk.old).steady
        (λ loaded. loaded) result (source_of (file_at files name.now MOST_BYTES))) }
    ensures some { (file : File) × Gives true (λ loaded. loaded) result (source_of file) }
    ensures read { IfOk result (λ loaded. (text : List ℕ) × (loaded_of text ≡ Ok loaded)) }
    ensures sound { IfOk result (λ loaded. All IsSound loaded.program.workers) }
    ensures few { IfOk result (λ loaded. length loaded.program.workers ≤ most_workers) }
    ensures cause { StepCounted (D.tells desk.old).faults (D.tells desk.new).faults result }
    ensures rest { D.tells desk.new
        ≡ record (D.tells desk.old) { faults = (D.tells desk.new).faults } }
{
    let text = fetch_source(alloc, desk, name)?;
    loaded(alloc, &text)
}
