// A run that garbles.
ghost use Rattle.std.specs.Prelude.{◌≡◌, ◌≤◌, ◌+◌, ◌⊎◌, ℕ, List, [], None, Some, length, map, reverse, IfSome, OnOk, slice_get, vec_capacity};
ghost use Rattle.mage_instr.specs.declared.directive.MemProgram.{MemProgram};
ghost use Rattle.mage_directives.specs.Directives.{IsMemProgram};
ghost use Rattle.mage_linked.specs.declared.emitted.Emitted.{Emitted};
ghost use Rattle.mage_linked.specs.Emission.{program_of};
ghost use Rattle.mage_linked.specs.Workers.{list_at};
ghost use Rattle.mage_verify.specs.Parts.{parts_of};
ghost use Rattle.mage_verify.specs.Runs.{AreVerified};
ghost use Rattle.mage_streams.specs.Streams.{garbled_stream};
ghost use Rattle.mage_carried.specs.Laws.{CanRun, Carries};
ghost use Rattle.mage_core.specs.declared.fault.RunFault.TheVariants as fault;
ghost use Rattle.mage_core.specs.Made.{HasStoreOf, shelves};
ghost use Rattle.mage_solo.specs.Stores.{told_by, AllSuffice, AreMoved, HaveGrown, WereDeceived};
ghost use Rattle.mage_solo.specs.Fronts.{AllTookFronts};
ghost use Rattle.mage_solo.specs.Plain.{lists_of};
ghost use Rattle.mage_solo.specs.Garbling.{AllHaveRoom, AllTellTaken, AllTook, NoneFailed, NoneTook, TellStill, GarbleStops, IsOfNoStore, HandsBack, AreMadeOf};

use mage_base::{Memory, Sink, Store};
use mage_core::{RunFault, solo};
use mage_garble::GarbleDriver;
use mage_verify::Part;
use std::alloc::Global;

/// What a run that garbles hands back: what stopped it, if anything did, and the sinks and stores of its workers, in order.
#[derive(Drop)]
pub struct Garbled<S, K> {
    pub fault: Option<RunFault>,
    pub sinks: Vec<K>,
    pub stores: Vec<Vec<S>>,
}

// Takes the drivers apart, from the last in the list, which is that of the lowest worker: its sink goes behind those in the list.
fn close_all<K: Sink>(drivers: &mut Vec<GarbleDriver<K>>, sinks: &mut Vec<K>)
    requires room { length sinks.old.items + length drivers.old.items ≤ vec_capacity sinks.old }
    ensures none { drivers.new.items ≡ [] }
    ensures back { HandsBack K.tells (reverse drivers.old.items) sinks.old.items sinks.new.items }
{
    while let Some(driver) = drivers.pop() {
        sinks.push_reserved(driver.close());
    }
}

// The drivers of all workers, from the last to the first, in room that was taken beforehand. Each takes its sink from the end of
// the list. With `Memory` some are made, and the other sinks are left.
fn make_all<K: Sink>(
    alloc: Global,
    seed: [u8; 32],
    mut garbler: Vec<Vec<u128>>,
    sinks: &mut Vec<K>,
    drivers: &mut Vec<GarbleDriver<K>>,
) -> Result<(), Memory>
    requires few { length sinks.old.items ≤ 16 }
    requires values { length garbler.items ≡ length sinks.old.items }
    requires none { drivers.old.items ≡ [] }
    requires room { length sinks.old.items ≤ vec_capacity drivers.old }
    ensures capacity { vec_capacity sinks.new ≡ vec_capacity sinks.old }
    ensures count { length sinks.new.items + length drivers.new.items ≡ length sinks.old.items }
    ensures all { OnOk result (sinks.new.items ≡ []) }
    ensures made { AreMadeOf K.tells seed garbler.items sinks.old.items sinks.new.items
        (reverse drivers.new.items) }
{
    while let Some(sink) = sinks.pop() {
        let Some(values) = garbler.pop() else {
            sinks.push_reserved(sink);
            return Err(Memory);
        };
        match GarbleDriver::make(alloc, seed, sinks.len() as u16, values, sink) {
            Ok(driver) => drivers.push_reserved(driver),
            Err((sink, Memory)) => {
                sinks.push_reserved(sink);
                return Err(Memory);
            }
        }
    }
    Ok(())
}

// The same drivers, from the first worker to the last.
fn turned<K: Sink>(drivers: Vec<GarbleDriver<K>>) -> Vec<GarbleDriver<K>>
    ensures { result.items ≡ reverse drivers.items }
{
    let mut drivers = drivers;
    drivers.as_mut_slice().reverse();
    drivers
}

/// Runs the workers of a memory program on one thread, each over a garbler that says its stream to its sink, on the garbler's inputs,
/// a list for each worker, and each over its one store. The parts are those of one `Verified`, in order; there are as many lists of
/// each kind as parts. A wire takes 16 bytes, so that a store's pages are 16 times as many bytes as the part's have wires.
///
/// It always returns, and hands sinks and stores back in order; a sink that told what it had taken tells it still. `Memory` comes
/// before the first step, and then the stores are as they were, and no sink took anything. Without a fault no sink failed. `Store` comes only where the count of faults of that worker's store rose or stands at its top,
/// `Damaged` only where that worker's store doesn't tell its pages and answered a read of that page with another digest than was kept,
/// and `Driver` only with `Sink`, where the count of faults of that worker's sink rose or stands at its top. Where all stores suffice
/// for their parts, only `Memory` and such a fault of a sink come.
///
/// Where the memory program carries a program that can run, and nothing stopped the run, each sink that tells what it takes took the
/// worker's garbled stream behind what it had, unless a store answered a read with other bytes of the same digest; and with a fault
/// but `Memory` each took a front of it. Where all stores suffice, and all sinks are steady with room for their streams, only `Memory`
/// comes. Nothing is said of how long it takes, nor of secrecy.
pub fn run_garbling<S: Store, K: Sink>(
    alloc: Global,
    parts: Vec<Part>,
    seed: [u8; 32],
    garbler: Vec<Vec<u128>>,
    sinks: Vec<K>,
    stores: Vec<Vec<S>>,
) -> Garbled<S, K>
    requires verified { AreVerified parts.items }
    requires garbler { length garbler.items ≡ length parts.items }
    requires sinks { length sinks.items ≡ length parts.items }
    requires stores { length stores.items ≡ length parts.items }
    requires suits { (w : ℕ) → IfSome (slice_get parts.items w)
        (λ part. IfSome (slice_get stores.items w)
        (λ shelf. HasStoreOf 16 S.tells part shelf.items)) }
    ensures memory { result.fault ≡ Some fault.Memory
        → (shelves result.stores.items ≡ shelves stores.items)
        × NoneTook (map K.tells sinks.items) (map K.tells result.sinks.items) }
    ensures shape { map (λ shelf. length shelf) (shelves result.stores.items)
        ≡ map (λ shelf. length shelf) (shelves stores.items) }
    ensures sinks { length result.sinks.items ≡ length sinks.items }
    ensures kept { TellStill (map K.tells sinks.items) (map K.tells result.sinks.items) }
    ensures quiet { result.fault ≡ None
        → NoneFailed (map K.tells sinks.items) (map K.tells result.sinks.items) }
    ensures grown { HaveGrown parts.items
        (told_by S.tells stores.items) (told_by S.tells result.stores.items) }
    ensures count { result.fault ≡ None → AreMoved parts.items
        (told_by S.tells stores.items) (told_by S.tells result.stores.items) }
    ensures comes { IfSome result.fault (GarbleStops parts.items
        (told_by S.tells stores.items) (told_by S.tells result.stores.items)
        (map K.tells sinks.items) (map K.tells result.sinks.items)) }
    ensures steady { AllSuffice parts.items (told_by S.tells stores.items)
        → IfSome result.fault IsOfNoStore }
    ensures streams { (plan : MemProgram) (count : ℕ) (emitted : List Emitted)
        → IsMemProgram plan → parts.items ≡ parts_of plan → Carries count emitted plan
        → CanRun count emitted → AllTellTaken (map K.tells sinks.items) → result.fault ≡ None
        → AllTook (map K.tells sinks.items) (map K.tells result.sinks.items)
        (garbled_stream (program_of count emitted) seed (list_at (lists_of garbler.items)))
        ⊎ WereDeceived parts.items
        (told_by S.tells stores.items) (told_by S.tells result.stores.items) }
    ensures fronts { (plan : MemProgram) (count : ℕ) (emitted : List Emitted)
        → IsMemProgram plan → parts.items ≡ parts_of plan → Carries count emitted plan
        → CanRun count emitted → AllTellTaken (map K.tells sinks.items)
        → (result.fault ≡ Some fault.Memory → ⊥)
        → AllTookFronts (map K.tells sinks.items) (map K.tells result.sinks.items)
        (garbled_stream (program_of count emitted) seed (list_at (lists_of garbler.items)))
        ⊎ WereDeceived parts.items
        (told_by S.tells stores.items) (told_by S.tells result.stores.items) }
    ensures roomy { (plan : MemProgram) (count : ℕ) (emitted : List Emitted)
        → IsMemProgram plan → parts.items ≡ parts_of plan → Carries count emitted plan
        → CanRun count emitted → AllTellTaken (map K.tells sinks.items)
        → AllSuffice parts.items (told_by S.tells stores.items)
        → AllHaveRoom (map K.tells sinks.items)
        (garbled_stream (program_of count emitted) seed (list_at (lists_of garbler.items)))
        → IfSome result.fault (λ f. f ≡ fault.Memory) }
{
    let mut sinks = sinks;
    let Ok(mut drivers) = Vec::with_capacity(alloc, parts.len()) else {
        return Garbled {
            fault: Some(RunFault::Memory),
            sinks,
            stores,
        };
    };
    if make_all(alloc, seed, garbler, &mut sinks, &mut drivers).is_err() {
        close_all(&mut drivers, &mut sinks);
        drivers.destroy_empty();
        return Garbled {
            fault: Some(RunFault::Memory),
            sinks,
            stores,
        };
    }
    let ended = solo(alloc, parts, turned(drivers), stores);
    let mut drivers = turned(ended.drivers);
    close_all(&mut drivers, &mut sinks);
    drivers.destroy_empty();
    Garbled {
        fault: ended.fault,
        sinks,
        stores: ended.stores,
    }
}
