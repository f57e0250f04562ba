// `deal`: the labels of the evaluator's inputs.
ghost use Rattle.std.specs.Prelude.{◌≡◌, ◌≤◌, ℕ, length, true, IfSome, IfOk};
ghost use Rattle.mage_instr.specs.Opcodes.{most_workers};
ghost use Rattle.mage_words.specs.Answers.{deal_view};
ghost use Rattle.mage_words.specs.Words as words;
ghost use Rattle.mage_planner.specs.declared.refusal.Refusal.TheVariants as refusals;
ghost use Rattle.mage_planner.specs.Outcome.{bytes_or, deal_outcome, if_seed, seed_of};
ghost use Rattle.mage_planner.specs.Found.{File, Found, SEED_BYTES, file_at, found_in};
ghost use Rattle.mage_planner.specs.Steps.{Gives, StepCounted, IsNoDeskFault};
ghost use Rattle.mage_planner.specs.Work.{dealt_by};

use crate::Refusal;
use crate::inputs::read_numbers;
use crate::sources::read_source;
use crate::work::Dealing;
use mage_base::{Desk, DeskError};
use mage_instr::Party;
use mage_words::Deal;
use std::alloc::Global;

// The bytes of a seed.
const SEED_BYTES: u64 = 32;

// The bytes of a seed's file.
fn fetch_seed<D: Desk>(alloc: Global, desk: &mut D, name: &str) -> Result<Vec<u8>, Refusal>
    ensures told { IfSome (D.tells desk.old).files (λ files. Gives (D.tells desk.old).steady
        (λ bytes. bytes.items) result
        (bytes_or refusals.InputSeed (file_at files name.now SEED_BYTES))) }
    ensures some { (file : File) × Gives true (λ bytes. bytes.items) result
        (bytes_or refusals.InputSeed file) }
    ensures cause { StepCounted (D.tells desk.old).faults (D.tells desk.new).faults result }
    ensures rest { D.tells desk.new
        ≡ record (D.tells desk.old) { faults = (D.tells desk.new).faults } }
{
    match desk.fetch(alloc, name, SEED_BYTES) {
        Ok(bytes) => Ok(bytes),
        Err(DeskError::Fault) => Err(Refusal::Desk),
        Err(DeskError::TooLong) => Err(Refusal::InputSeed),
        Err(DeskError::Memory) => Err(Refusal::Memory),
    }
}

// The seed that the bytes are, where they are just as many.
fn seed_in(bytes: &[u8]) -> Result<[u8; 32], Refusal>
    ensures quiet { (faults : ℕ) → StepCounted faults faults result }
    ensures no_fault { IsNoDeskFault result }
    ensures seed { Gives true (λ seed. seed) result (if_seed bytes.now) }
{
    if bytes.len() != 32 {
        return Err(Refusal::InputSeed);
    }
    let mut seed = [0; 32];
    seed.copy_from_slice(bytes);
    Ok(seed)
}

/// The seed that a file has.
#[tactic(auto, unfolding(crate::specs::Outcome::seed_of))]
pub fn read_seed<D: Desk>(alloc: Global, desk: &mut D, name: &str) -> Result<[u8; 32], Refusal>
    ensures told { IfSome (D.tells desk.old).files (λ files. Gives (D.tells desk.old).steady
        (λ seed. seed) result (seed_of (file_at files name.now SEED_BYTES))) }
    ensures some { (file : File) × Gives true (λ seed. seed) result (seed_of file) }
    ensures cause { StepCounted (D.tells desk.old).faults (D.tells desk.new).faults result }
    ensures rest { D.tells desk.new
        ≡ record (D.tells desk.old) { faults = (D.tells desk.new).faults } }
{
    let bytes = fetch_seed(alloc, desk, name)?;
    seed_in(&bytes)
}

/// What `deal` writes, found out in the order of work.
#[tactic(auto, unfolding(crate::specs::Outcome::deal_outcome))]
pub fn deal<'a, D: Desk>(
    alloc: Global,
    deal: Deal<'a>,
    desk: &mut D,
) -> Result<Dealing<'a>, Refusal>
    ensures told { IfSome (D.tells desk.old).files (λ files. Gives (D.tells desk.old).steady
        dealt_by result
        (deal_outcome (found_in files (words.Deal (deal_view deal.entry)))
        (deal_view deal.entry))) }
    ensures some { (found : Found) × Gives true dealt_by result
        (deal_outcome found (deal_view deal.entry)) }
    ensures few { IfOk result (λ dealing.
        length dealing.program.workers ≤ most_workers) }
    ensures cause { StepCounted (D.tells desk.old).faults (D.tells desk.new).faults result }
    ensures rest { D.tells desk.new
        ≡ record (D.tells desk.old) { faults = (D.tells desk.new).faults } }
{
    let loaded = read_source(alloc, desk, deal.source)?;
    let evaluator = read_numbers(alloc, desk, deal.evaluator, &loaded, Party::Evaluator)?;
    let seed = read_seed(alloc, desk, deal.seed)?;
    Ok(Dealing {
        program: loaded.program,
        seed,
        evaluator,
        labels: deal.labels,
    })
}
