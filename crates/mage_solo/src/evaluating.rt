// A run that evaluates.
ghost use Rattle.std.specs.Prelude.{◌≡◌, ◌≤◌, ◌<◌, ◌+◌, ◌^◌, ◌⊎◌, ℕ, List, [], None, Some, length, map, reverse, IfSome, IfErr, IfOk, OnOk, slice_get, vec_capacity};
ghost use Rattle.mage_instr.specs.declared.directive.MemProgram.{MemProgram};
ghost use Rattle.mage_directives.specs.Directives.{IsMemProgram};
ghost use Rattle.mage_linked.specs.declared.emitted.Emitted.{Emitted};
ghost use Rattle.mage_linked.specs.Emission.{program_of};
ghost use Rattle.mage_linked.specs.Workers.{list_at};
ghost use Rattle.mage_verify.specs.Parts.{parts_of};
ghost use Rattle.mage_verify.specs.Runs.{AreVerified};
ghost use Rattle.mage_carried.specs.Laws.{CanRun, Carries};
ghost use Rattle.mage_garbled_runs.specs.Meant.{CanRunOn};
ghost use Rattle.mage_garbled_runs.specs.Runs.{AreWhole};
ghost use Rattle.mage_meaning.specs.Given.{Given};
ghost use Rattle.mage_meaning.specs.Means.{means_of};
ghost use Rattle.mage_core.specs.declared.fault.RunFault.TheVariants as fault;
ghost use Rattle.mage_core.specs.Made.{HasStoreOf, shelves};
ghost use Rattle.mage_solo.specs.Stores.{told_by, AllSuffice, AreMoved, HaveGrown, WereDeceived};
ghost use Rattle.mage_solo.specs.Plain.{lists_of};
ghost use Rattle.mage_solo.specs.Evaluating.{AllTellLeft, AllSteady, AreDealt, AreStreams, NoneFailed, EvalStops, IsOfNoStore, IsOfAStream, IsForItsStream, stream_fault, decoded_by, labels_in, evaluator_opening, outputs_of, GivesBack, AreMadeFor};

use crate::outputs::{count_outputs, unless_stopped};
use mage_base::{Memory, Source, Store};
use mage_core::{RunFault, solo};
use mage_eval::EvalDriver;
use mage_label::Label;
use mage_verify::Part;
use std::alloc::Global;

/// What a run that evaluates hands back: what each worker put out, or what stopped the run; and the sources and stores of its workers,
/// in order.
#[derive(Drop)]
pub struct Evaluated<S, I> {
    pub outcome: Result<Vec<Vec<u128>>, RunFault>,
    pub sources: Vec<I>,
    pub stores: Vec<Vec<S>>,
}

// Takes the drivers apart, from the last in the list, which is that of the lowest worker: its source goes behind those in the list,
// and what it put out behind the other outputs.
fn close_all<I: Source>(
    drivers: &mut Vec<EvalDriver<I>>,
    sources: &mut Vec<I>,
    outputs: &mut Vec<Vec<u128>>,
)
    requires none { outputs.old.items ≡ [] }
    requires room { length sources.old.items + length drivers.old.items ≤ vec_capacity sources.old }
    requires space { length drivers.old.items ≤ vec_capacity outputs.old }
    ensures none { drivers.new.items ≡ [] }
    ensures back { GivesBack I.tells (reverse drivers.old.items) sources.old.items sources.new.items }
    ensures outputs { lists_of outputs.new.items ≡ outputs_of (reverse drivers.old.items) }
{
    while let Some(driver) = drivers.pop() {
        let (source, own) = driver.close();
        sources.push_reserved(source);
        outputs.push_reserved(own);
    }
}

// Room for the drivers of so many workers, and for what each puts out.
fn room<I: Source>(
    alloc: Global,
    workers: usize,
) -> Result<(Vec<EvalDriver<I>>, Vec<Vec<u128>>), Memory>
    ensures drivers { IfOk result (λ room. room.0.items ≡ []) }
    ensures outputs { IfOk result (λ room. room.1.items ≡ []) }
    ensures room { IfOk result (λ room. workers ≤ vec_capacity room.0) }
    ensures space { IfOk result (λ room. workers ≤ vec_capacity room.1) }
{
    let outputs = Vec::with_capacity(alloc, workers)?;
    let drivers = Vec::with_capacity(alloc, workers)?;
    Ok((drivers, outputs))
}

// The driver of a part.
fn driver_for<I: Source>(
    alloc: Global,
    worker: u16,
    part: &Part,
    labels: Vec<Label>,
    source: I,
) -> Result<EvalDriver<I>, (I, Memory)>
    requires { length part.now.directives < 2 ^ 32 }
    ensures made { IfOk result (λ driver. driver
        ≡ evaluator_opening worker part.now labels.items (I.tells source)) }
    ensures back { IfErr result (λ failed. failed.0 ≡ source) }
{
    EvalDriver::make(
        alloc,
        worker,
        labels,
        count_outputs(part.directives()),
        source,
    )
}

// The drivers of all workers, from the last to the first, in room that was taken beforehand. Each takes its source from the end of
// the list. With `Memory` some are made, and the other sources are left.
fn make_all<I: Source>(
    alloc: Global,
    parts: &[Part],
    mut labels: Vec<Vec<Label>>,
    sources: &mut Vec<I>,
    drivers: &mut Vec<EvalDriver<I>>,
) -> Result<(), Memory>
    requires few { length sources.old.items ≤ 16 }
    requires short { (w : ℕ) → IfSome (slice_get parts.now w)
        (λ part. length part.directives < 2 ^ 32) }
    requires parts { length sources.old.items ≡ length parts.now }
    requires labels { length labels.items ≡ length sources.old.items }
    requires none { drivers.old.items ≡ [] }
    requires room { length sources.old.items ≤ vec_capacity drivers.old }
    ensures capacity { vec_capacity sources.new ≡ vec_capacity sources.old }
    ensures count { length sources.new.items + length drivers.new.items ≡ length sources.old.items }
    ensures all { OnOk result (sources.new.items ≡ []) }
    ensures made { AreMadeFor I.tells parts.now labels.items sources.old.items sources.new.items
        (reverse drivers.new.items) }
{
    while let Some(source) = sources.pop() {
        let Some(own) = labels.pop() else {
            sources.push_reserved(source);
            return Err(Memory);
        };
        let worker = sources.len();
        match driver_for(alloc, worker as u16, &parts[worker], own, source) {
            Ok(driver) => drivers.push_reserved(driver),
            Err((source, Memory)) => {
                sources.push_reserved(source);
                return Err(Memory);
            }
        }
    }
    Ok(())
}

// The same drivers, from the first worker to the last.
fn turned<I: Source>(drivers: Vec<EvalDriver<I>>) -> Vec<EvalDriver<I>>
    ensures { result.items ≡ reverse drivers.items }
{
    let mut drivers = drivers;
    drivers.as_mut_slice().reverse();
    drivers
}

/// Runs the workers of a memory program on one thread, each over an evaluator with the labels that were dealt to it, which reads a
/// stream from its source, and each over its one store. The parts are those of one `Verified`, in order; there are as many lists of
/// each kind as parts. A wire takes 16 bytes, so that a store's pages are 16 times as many bytes as the part's have wires.
///
/// It always returns, and hands all sources and stores back. `Memory` comes before the first step, and then the stores are as
/// they were, and no source failed. `Store` comes only where the count of faults of that worker's store rose or stands at its top,
/// `Damaged` only where that worker's store doesn't tell its pages and answered a read of that page with another digest than was
/// kept. A driver's fault is never `Sink`, and `Source` only where that worker's source isn't steady, and its count of faults rose or
/// stands at its top. So where all stores suffice and the sources are steady, only a stream that isn't what is due stops a run.
///
/// Where the memory program carries a program that can run, every source tells what it has left, and the labels are whole, what is
/// answered is decoded from the labels and from what the sources had left, and then nothing was wrong with any stream; and a driver
/// stops at its source, where that isn't steady, or else for what is wrong first with its stream, over the whole program. So where
/// nothing is, the sources are steady and all stores suffice, only want of memory comes. Where the labels and the streams are those of
/// one seed and of inputs on which the program can run, nothing is, and what is answered is what the program means on numbers. All
/// that unless a store answered a read with other bytes of the same digest. What sources have left afterwards isn't said, nor how long
/// it takes.
pub fn run_evaluating<S: Store, I: Source>(
    alloc: Global,
    parts: Vec<Part>,
    labels: Vec<Vec<Label>>,
    sources: Vec<I>,
    stores: Vec<Vec<S>>,
) -> Evaluated<S, I>
    requires verified { AreVerified parts.items }
    requires labels { length labels.items ≡ length parts.items }
    requires sources { length sources.items ≡ length parts.items }
    requires stores { length stores.items ≡ length parts.items }
    requires suits { (w : ℕ) → IfSome (slice_get parts.items w)
        (λ part. IfSome (slice_get stores.items w)
        (λ shelf. HasStoreOf 16 S.tells part shelf.items)) }
    ensures memory { IfErr result.outcome (λ f. f ≡ fault.Memory
        → (shelves result.stores.items ≡ shelves stores.items)
        × NoneFailed (map I.tells sources.items) (map I.tells result.sources.items)) }
    ensures shape { map (λ shelf. length shelf) (shelves result.stores.items)
        ≡ map (λ shelf. length shelf) (shelves stores.items) }
    ensures sources { length result.sources.items ≡ length sources.items }
    ensures grown { HaveGrown parts.items
        (told_by S.tells stores.items) (told_by S.tells result.stores.items) }
    ensures count { OnOk result.outcome (AreMoved parts.items
        (told_by S.tells stores.items) (told_by S.tells result.stores.items)) }
    ensures unfailed { OnOk result.outcome
        (NoneFailed (map I.tells sources.items) (map I.tells result.sources.items)) }
    ensures comes { IfErr result.outcome (EvalStops parts.items
        (told_by S.tells stores.items) (told_by S.tells result.stores.items)
        (map I.tells sources.items) (map I.tells result.sources.items)) }
    ensures stores { AllSuffice parts.items (told_by S.tells stores.items)
        → IfErr result.outcome IsOfNoStore }
    ensures steady { AllSuffice parts.items (told_by S.tells stores.items)
        → AllSteady (map I.tells result.sources.items) → IfErr result.outcome IsOfAStream }
    ensures workers { IfOk result.outcome (λ outputs. length outputs.items ≡ length parts.items) }
    ensures said { (plan : MemProgram) (count : ℕ) (emitted : List Emitted)
        → IsMemProgram plan → parts.items ≡ parts_of plan → Carries count emitted plan
        → CanRun count emitted → AllTellLeft (map I.tells sources.items)
        → ((w : ℕ) → AreWhole (list_at (labels_in labels.items) w))
        → IfOk result.outcome (λ outputs. ((lists_of outputs.items
        ≡ decoded_by (program_of count emitted) (labels_in labels.items)
        (map I.tells sources.items) count)
        × ((w : ℕ) → w < count → stream_fault (program_of count emitted)
        (labels_in labels.items) (map I.tells sources.items) w ≡ None))
        ⊎ WereDeceived parts.items
        (told_by S.tells stores.items) (told_by S.tells result.stores.items)) }
    ensures wrong { (plan : MemProgram) (count : ℕ) (emitted : List Emitted)
        → IsMemProgram plan → parts.items ≡ parts_of plan → Carries count emitted plan
        → CanRun count emitted → AllTellLeft (map I.tells sources.items)
        → ((w : ℕ) → AreWhole (list_at (labels_in labels.items) w))
        → IfErr result.outcome (λ f. IsForItsStream (program_of count emitted)
        (labels_in labels.items) (map I.tells sources.items) f ⊎ WereDeceived parts.items
        (told_by S.tells stores.items) (told_by S.tells result.stores.items)) }
    ensures runs { (plan : MemProgram) (count : ℕ) (emitted : List Emitted)
        → IsMemProgram plan → parts.items ≡ parts_of plan → Carries count emitted plan
        → CanRun count emitted → AllTellLeft (map I.tells sources.items)
        → ((w : ℕ) → AreWhole (list_at (labels_in labels.items) w))
        → AllSuffice parts.items (told_by S.tells stores.items)
        → AllSteady (map I.tells sources.items) → ((w : ℕ) → w < count
        → stream_fault (program_of count emitted) (labels_in labels.items)
        (map I.tells sources.items) w ≡ None) → IfErr result.outcome (λ f. f ≡ fault.Memory) }
    ensures meant { (plan : MemProgram) (count : ℕ) (emitted : List Emitted) (given : Given)
        (seed : List ℕ) → IsMemProgram plan → parts.items ≡ parts_of plan
        → Carries count emitted plan → CanRunOn count emitted given
        → AreDealt count emitted given seed (labels_in labels.items)
        → AreStreams count emitted given seed (map I.tells sources.items)
        → IfOk result.outcome (λ outputs. (lists_of outputs.items
        ≡ means_of (program_of count emitted) given) ⊎ WereDeceived parts.items
        (told_by S.tells stores.items) (told_by S.tells result.stores.items)) }
    ensures succeeds { (plan : MemProgram) (count : ℕ) (emitted : List Emitted) (given : Given)
        (seed : List ℕ) → IsMemProgram plan → parts.items ≡ parts_of plan
        → Carries count emitted plan → CanRunOn count emitted given
        → AreDealt count emitted given seed (labels_in labels.items)
        → AreStreams count emitted given seed (map I.tells sources.items)
        → AllSuffice parts.items (told_by S.tells stores.items)
        → AllSteady (map I.tells sources.items) → IfErr result.outcome (λ f. f ≡ fault.Memory) }
{
    let mut sources = sources;
    let Ok((mut drivers, mut outputs)) = room(alloc, parts.len()) else {
        return Evaluated {
            outcome: Err(RunFault::Memory),
            sources,
            stores,
        };
    };
    if make_all(alloc, parts.as_slice(), labels, &mut sources, &mut drivers).is_err() {
        close_all(&mut drivers, &mut sources, &mut outputs);
        drivers.destroy_empty();
        return Evaluated {
            outcome: Err(RunFault::Memory),
            sources,
            stores,
        };
    }
    let ended = solo(alloc, parts, turned(drivers), stores);
    let mut drivers = turned(ended.drivers);
    close_all(&mut drivers, &mut sources, &mut outputs);
    drivers.destroy_empty();
    Evaluated {
        outcome: unless_stopped(ended.fault, outputs),
        sources,
        stores: ended.stores,
    }
}
