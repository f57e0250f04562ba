// A run in plain.
ghost use Rattle.std.specs.Prelude.{◌≡◌, ◌<◌, ◌≤◌, ◌^◌, ◌⊎◌, ℕ, List, [], None, Some, length, map, reverse, IfOk, IfErr, IfSome, OnOk, slice_get, vec_capacity};
ghost use Rattle.mage_instr.specs.declared.directive.MemProgram.{MemProgram};
ghost use Rattle.mage_directives.specs.Directives.{IsMemProgram};
ghost use Rattle.mage_linked.specs.declared.emitted.Emitted.{Emitted};
ghost use Rattle.mage_linked.specs.Emission.{program_of};
ghost use Rattle.mage_meaning.specs.Means.{means_of};
ghost use Rattle.mage_verify.specs.Parts.{parts_of};
ghost use Rattle.mage_verify.specs.Runs.{AreVerified};
ghost use Rattle.mage_carried.specs.Laws.{Carries};
ghost use Rattle.mage_garbled_runs.specs.Meant.{CanRunOn};
ghost use Rattle.mage_core.specs.declared.fault.RunFault.TheVariants as fault;
ghost use Rattle.mage_core.specs.Made.{HasStoreOf, shelves};
ghost use Rattle.mage_solo.specs.Stores.{told_by, AreMoved, HaveGrown, WereDeceived, AllSuffice};
ghost use Rattle.mage_solo.specs.Plain.{lists_of, given_by, PlainStops, opening, openings, outputs_kept};

use crate::outputs::{count_outputs, unless_stopped};
use mage_base::{Memory, Store};
use mage_core::{Ended, RunFault, solo};
use mage_plain::PlainDriver;
use mage_verify::Part;
use std::alloc::Global;

/// What a run in plain hands back: what each worker put out, or what stopped the run; and the stores of its workers, in order.
#[derive(Drop)]
pub struct Ran<S> {
    pub outcome: Result<Vec<Vec<u128>>, RunFault>,
    pub stores: Vec<Vec<S>>,
}

// The driver of a part, which takes the worker's values out of the lists of both parties.
fn driver_for(
    alloc: Global,
    part: &Part,
    garbler: &mut Vec<u128>,
    evaluator: &mut Vec<u128>,
) -> Result<PlainDriver, Memory>
    requires { length part.now.directives < 2 ^ 32 }
    ensures { IfOk result (λ driver. driver ≡ opening part.now garbler.old.items evaluator.old.items) }
{
    let garbler = std::mem::replace(garbler, Vec::new(alloc));
    let evaluator = std::mem::replace(evaluator, Vec::new(alloc));
    PlainDriver::make(alloc, garbler, evaluator, count_outputs(part.directives()))
}

// The drivers of all parts, and room for what each puts out.
fn prepare(
    alloc: Global,
    parts: &[Part],
    mut garbler: Vec<Vec<u128>>,
    mut evaluator: Vec<Vec<u128>>,
) -> Result<(Vec<PlainDriver>, Vec<Vec<u128>>), Memory>
    requires few { (w : ℕ) → IfSome (slice_get parts.now w) (λ part. length part.directives < 2 ^ 32) }
    requires garbler { length garbler.items ≡ length parts.now }
    requires evaluator { length evaluator.items ≡ length parts.now }
    ensures drivers { IfOk result (λ made. made.0.items
        ≡ openings parts.now (lists_of garbler.items) (lists_of evaluator.items)) }
    ensures none { IfOk result (λ made. made.1.items ≡ []) }
    ensures room { IfOk result (λ made. length parts.now ≤ vec_capacity made.1) }
{
    let outputs = Vec::with_capacity(alloc, parts.len())?;
    let mut drivers = Vec::with_capacity(alloc, parts.len())?;
    for worker in 0..parts.len() {
        drivers.push(driver_for(
            alloc,
            &parts[worker],
            &mut garbler[worker],
            &mut evaluator[worker],
        )?)?;
    }
    Ok((drivers, outputs))
}

// The same drivers, from the last worker to the first.
fn turned(drivers: Vec<PlainDriver>) -> Vec<PlainDriver>
    ensures { result.items ≡ reverse drivers.items }
{
    let mut drivers = drivers;
    drivers.as_mut_slice().reverse();
    drivers
}

// What each driver put out, where they stand from the last worker to the first.
fn take_outputs(drivers: &mut Vec<PlainDriver>, outputs: &mut Vec<Vec<u128>>)
    requires none { outputs.old.items ≡ [] }
    requires room { length drivers.old.items ≤ vec_capacity outputs.old }
    ensures { lists_of outputs.new.items ≡ outputs_kept (reverse drivers.old.items) }
{
    while let Some(driver) = drivers.pop() {
        outputs.push_reserved(driver.into_outputs());
    }
}

/// Runs the workers of a memory program in plain on one thread, on the inputs of both parties, a list for each worker, each over
/// its one store. The parts are those of one `Verified`, in order; there are as many lists of each kind as parts. A wire takes a byte,
/// so that a store's pages are as many bytes as the part's have wires.
///
/// It always returns, and hands the stores back in order. `Memory` comes before the first step, and then the stores are as they were.
/// `Store` comes only where the count of faults of that worker's store rose or stands at its top, `Damaged` only where that worker's store
/// doesn't tell its pages and answered a read of that page with another digest than was kept; no driver ever stops.
///
/// Where the memory program carries a program that can run on the inputs, what is answered is what the program means on numbers,
/// unless a store answered a read with other bytes of the same digest. Nothing is said of how long it takes.
pub fn run_plain<S: Store>(
    alloc: Global,
    parts: Vec<Part>,
    garbler: Vec<Vec<u128>>,
    evaluator: Vec<Vec<u128>>,
    stores: Vec<Vec<S>>,
) -> Ran<S>
    requires verified { AreVerified parts.items }
    requires garbler { length garbler.items ≡ length parts.items }
    requires evaluator { length evaluator.items ≡ length parts.items }
    requires stores { length stores.items ≡ length parts.items }
    requires suits { (w : ℕ) → IfSome (slice_get parts.items w)
        (λ part. IfSome (slice_get stores.items w)
        (λ shelf. HasStoreOf 1 S.tells part shelf.items)) }
    ensures memory { IfErr result.outcome (λ f. f ≡ fault.Memory
        → shelves result.stores.items ≡ shelves stores.items) }
    ensures shape { map (λ shelf. length shelf) (shelves result.stores.items)
        ≡ map (λ shelf. length shelf) (shelves stores.items) }
    ensures grown { HaveGrown parts.items
        (told_by S.tells stores.items) (told_by S.tells result.stores.items) }
    ensures count { OnOk result.outcome (AreMoved parts.items
        (told_by S.tells stores.items) (told_by S.tells result.stores.items)) }
    ensures comes { IfErr result.outcome (PlainStops parts.items
        (told_by S.tells stores.items) (told_by S.tells result.stores.items)) }
    ensures steady { AllSuffice parts.items (told_by S.tells stores.items)
        → IfErr result.outcome (λ f. f ≡ fault.Memory) }
    ensures workers { IfOk result.outcome (λ outputs. length outputs.items ≡ length parts.items) }
    ensures said { (plan : MemProgram) (count : ℕ) (emitted : List Emitted) → IsMemProgram plan
        → parts.items ≡ parts_of plan → Carries count emitted plan
        → CanRunOn count emitted (given_by garbler.items evaluator.items)
        → IfOk result.outcome (λ outputs. (lists_of outputs.items
        ≡ means_of (program_of count emitted) (given_by garbler.items evaluator.items))
        ⊎ WereDeceived parts.items
        (told_by S.tells stores.items) (told_by S.tells result.stores.items)) }
{
    let Ok((drivers, mut outputs)) = prepare(alloc, parts.as_slice(), garbler, evaluator) else {
        return Ran {
            outcome: Err(RunFault::Memory),
            stores,
        };
    };
    let Ended {
        drivers,
        stores,
        fault,
    } = solo(alloc, parts, drivers, stores);
    take_outputs(&mut turned(drivers), &mut outputs);
    Ran {
        outcome: unless_stopped(fault, outputs),
        stores,
    }
}
