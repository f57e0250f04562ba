// The serial run.
ghost use Rattle.std.specs.Prelude.{◌≡◌, ◌≤◌, ◌+◌, ◌⊎◌, ℕ, [], None, Some, length, map, reverse, drop, IfOk, IfSome, slice_get, vec_capacity};
ghost use Rattle.std.specs.List.{All};
ghost use Rattle.mage_driver.specs.declared.standing.Standing.TheVariants as standing;
ghost use Rattle.mage_link.specs.Queues.{new_queues, queue_told};
ghost use Rattle.mage_link.specs.Links.{IsUnused};
ghost use Rattle.mage_verify.specs.Runs.{AreVerified};
ghost use Rattle.mage_core.specs.declared.fault.RunFault.TheVariants as fault;
ghost use Rattle.mage_core.specs.Going.{EndsAs};
ghost use Rattle.mage_core.specs.Made.{HasStoreOf, Hold, IsEmptied, shelves};
ghost use Rattle.mage_core.specs.Turns.{sights};
ghost use Rattle.mage_core.specs.Results.{starts_of, AllStay, Back, ComesTo};
ghost use Rattle.mage_core.specs.Answered.{AreStates, AreTold, RunsAnswered};
ghost use Rattle.mage_core.specs.Joined.{RunsJoint, WasDeceived};
ghost use Rattle.mage_core.specs.Begun.{BeginsAnswered, BeginsJoint};
ghost use Rattle.mage_core.specs.Steady.{Suffices, IsNotOfStore, IsNotOfDriver, TellsAlike};
ghost use Rattle.mage_base.specs.declared.failure.Damage.{Damage};
ghost use Rattle.mage_instr.specs.declared.fault.DriverFault.{DriverFault};
ghost use Rattle.mage_instr.specs.declared.directive.MemProgram.{MemProgram};
ghost use Rattle.mage_directives.specs.Directives.{IsMemProgram};
ghost use Rattle.mage_verify.specs.Parts.{parts_of};

use crate::closing::close_all;
use crate::making::make_all;
use crate::turns::run_from_last;
use crate::{Ended, RunFault};
use mage_base::{Memory, Store};
use mage_driver::Driver;
use mage_engine::Machine;
use mage_link::QueueLink;
use mage_store::{SealedPort, SerialPort};
use mage_verify::Part;
use std::alloc::Global;

// How many wires a link holds.
const CAPACITY: u16 = 64;

// Links between so many workers, and room for their machines.
fn room<D: Driver, S: Store>(
    alloc: Global,
    workers: u16,
) -> Result<(QueueLink, Vec<Machine<D, SealedPort<SerialPort<S>>>>), Memory>
    requires { (1 ≤ workers) × (workers ≤ 16) }
    ensures links { IfOk result (λ room. room.0 ≡ new_queues workers 64) }
    ensures unused { IfOk result (λ room. IsUnused (queue_told room.0)) }
    ensures none { IfOk result (λ room. room.1.items ≡ []) }
    ensures room { IfOk result (λ room. workers ≤ vec_capacity room.1) }
{
    let link = QueueLink::make(alloc, workers, CAPACITY)?;
    let machines = Vec::with_capacity(alloc, workers as usize)?;
    Ok((link, machines))
}

// Makes the machines and runs them. They stand from the last worker to the first; with `Memory` only some are there.
fn run_all<D: Driver, S: Store>(
    alloc: Global,
    parts: Vec<Part>,
    drivers: &mut Vec<D>,
    stores: &mut Vec<Vec<S>>,
    machines: &mut Vec<Machine<D, SealedPort<SerialPort<S>>>>,
    link: &mut QueueLink,
) -> Option<RunFault>
    requires none { machines.old.items ≡ [] }
    requires room { length parts.items ≤ vec_capacity machines.old }
    requires links { link.old ≡ new_queues (length parts.items) 64 }
    requires unused { IsUnused (queue_told link.old) }
    requires few { length parts.items ≤ 16 }
    requires verified { AreVerified parts.items }
    requires drivers { length drivers.old.items ≡ length parts.items }
    requires stores { length stores.old.items ≡ length parts.items }
    requires running { All (λ driver. (D.tells driver).standing ≡ standing.Running)
        drivers.old.items }
    requires suits { (w : ℕ) → IfSome (slice_get parts.items w)
        (λ part. IfSome (slice_get stores.old.items w)
        (λ shelf. HasStoreOf D.WIRE_BYTES S.tells part shelf.items)) }
    ensures count { length stores.new.items
        ≡ length drivers.new.items + length machines.new.items }
    ensures total { length drivers.new.items + length machines.new.items
        ≡ length drivers.old.items }
    ensures emptied { All IsEmptied (drop (length drivers.new.items) stores.new.items) }
    ensures room { length drivers.new.items + length machines.new.items
        ≤ vec_capacity drivers.new }
    ensures memory { result ≡ Some fault.Memory → Hold drivers.new.items stores.new.items
        machines.new.items drivers.old.items (shelves stores.old.items) }
    ensures ran { (result ≡ Some fault.Memory → ⊥) → (drivers.new.items ≡ [])
        × EndsAs D.rules (starts_of parts.items (map D.tells drivers.old.items)
        (map (λ shelf. map S.tells shelf) (shelves stores.old.items)))
        (sights D.tells S.tells (reverse machines.new.items)) link.new result }
{
    match make_all(alloc, parts, drivers, stores, machines) {
        Ok(()) => run_from_last(machines, link),
        Err(Memory) => Some(RunFault::Memory),
    }
}

/// Runs the workers of a memory program on one thread, each over its driver and its one store, over links of 64 wires. The
/// parts are those of one `Verified`, in order; there are as many drivers as parts, each of which runs, and as many lists of
/// stores, each of one store whose pages are as long as the part's.
///
/// It always returns, and hands drivers and stores back in order. `Memory` comes before the first step, and then they are as
/// they were. At each turn the lowest worker that can go on makes a step; the run ends once none can, which is where all have
/// ended, or where one is stopped. A worker's fault is the first that a turn meets, which isn't always the first in the
/// verifier's order: one that sends goes on while its link has room. Where each store suffices for its part no run stops for a
/// store, and whatever a run comes to, a store has the pages that it had. Without a fault, and where all drivers are told, each
/// stands where the joint run ends, unless a store gave back another page of the same digest. With a fault but `Memory` what each
/// put out and wrote begins what it does there, and a driver that was stopped was so in a call of that run. Nothing is said of how
/// long it takes.
pub fn solo<D: Driver, S: Store>(
    alloc: Global,
    parts: Vec<Part>,
    drivers: Vec<D>,
    stores: Vec<Vec<S>>,
) -> Ended<D, S>
    requires verified { AreVerified parts.items }
    requires drivers { length drivers.items ≡ length parts.items }
    requires stores { length stores.items ≡ length parts.items }
    requires running { All (λ driver. (D.tells driver).standing ≡ standing.Running)
        drivers.items }
    requires suits { (w : ℕ) → IfSome (slice_get parts.items w)
        (λ part. IfSome (slice_get stores.items w)
        (λ shelf. HasStoreOf D.WIRE_BYTES S.tells part shelf.items)) }
    ensures memory { result.fault ≡ Some fault.Memory → (result.drivers.items ≡ drivers.items)
        × (shelves result.stores.items ≡ shelves stores.items) }
    ensures drivers { length result.drivers.items ≡ length drivers.items }
    ensures stores { map (λ shelf. length shelf) (shelves result.stores.items)
        ≡ map (λ shelf. length shelf) (shelves stores.items) }
    ensures comes { ComesTo
        (starts_of parts.items (map D.tells drivers.items)
        (map (λ shelf. map S.tells shelf) (shelves stores.items)))
        (map D.tells result.drivers.items)
        (map (λ shelf. map S.tells shelf) (shelves result.stores.items)) result.fault }
    ensures stays { AllStay
        (starts_of parts.items (map D.tells drivers.items)
        (map (λ shelf. map S.tells shelf) (shelves stores.items)))
        (map D.tells result.drivers.items)
        (map (λ shelf. map S.tells shelf) (shelves result.stores.items)) }
    ensures answered { (plan : MemProgram) (states : ℕ → D.rules.State) → IsMemProgram plan
        → parts.items ≡ parts_of plan
        → AreStates (starts_of parts.items (map D.tells drivers.items)
        (map (λ shelf. map S.tells shelf) (shelves stores.items))) states
        → AreTold (starts_of parts.items (map D.tells drivers.items)
        (map (λ shelf. map S.tells shelf) (shelves stores.items)))
        → result.fault ≡ None → RunsAnswered D.rules plan states
        (starts_of parts.items (map D.tells drivers.items)
        (map (λ shelf. map S.tells shelf) (shelves stores.items)))
        (map D.tells result.drivers.items)
        (map (λ shelf. map S.tells shelf) (shelves result.stores.items)) }
    ensures joint { (plan : MemProgram) (states : ℕ → D.rules.State) → IsMemProgram plan
        → parts.items ≡ parts_of plan
        → AreStates (starts_of parts.items (map D.tells drivers.items)
        (map (λ shelf. map S.tells shelf) (shelves stores.items))) states
        → AreTold (starts_of parts.items (map D.tells drivers.items)
        (map (λ shelf. map S.tells shelf) (shelves stores.items)))
        → result.fault ≡ None → RunsJoint D.rules plan states
        (starts_of parts.items (map D.tells drivers.items)
        (map (λ shelf. map S.tells shelf) (shelves stores.items)))
        (map D.tells result.drivers.items)
        (map (λ shelf. map S.tells shelf) (shelves result.stores.items))
        ⊎ WasDeceived (starts_of parts.items (map D.tells drivers.items)
        (map (λ shelf. map S.tells shelf) (shelves stores.items)))
        (map D.tells result.drivers.items)
        (map (λ shelf. map S.tells shelf) (shelves result.stores.items)) }
    ensures begins_answered { (plan : MemProgram) (states : ℕ → D.rules.State)
        → IsMemProgram plan → parts.items ≡ parts_of plan
        → AreStates (starts_of parts.items (map D.tells drivers.items)
        (map (λ shelf. map S.tells shelf) (shelves stores.items))) states
        → AreTold (starts_of parts.items (map D.tells drivers.items)
        (map (λ shelf. map S.tells shelf) (shelves stores.items)))
        → (result.fault ≡ Some fault.Memory → ⊥) → BeginsAnswered D.rules plan states
        (starts_of parts.items (map D.tells drivers.items)
        (map (λ shelf. map S.tells shelf) (shelves stores.items)))
        (map D.tells result.drivers.items)
        (map (λ shelf. map S.tells shelf) (shelves result.stores.items)) result.fault }
    ensures begins { (plan : MemProgram) (states : ℕ → D.rules.State) → IsMemProgram plan
        → parts.items ≡ parts_of plan
        → AreStates (starts_of parts.items (map D.tells drivers.items)
        (map (λ shelf. map S.tells shelf) (shelves stores.items))) states
        → AreTold (starts_of parts.items (map D.tells drivers.items)
        (map (λ shelf. map S.tells shelf) (shelves stores.items)))
        → (result.fault ≡ Some fault.Memory → ⊥) → BeginsJoint D.rules plan states
        (starts_of parts.items (map D.tells drivers.items)
        (map (λ shelf. map S.tells shelf) (shelves stores.items)))
        (map D.tells result.drivers.items)
        (map (λ shelf. map S.tells shelf) (shelves result.stores.items)) result.fault
        ⊎ WasDeceived (starts_of parts.items (map D.tells drivers.items)
        (map (λ shelf. map S.tells shelf) (shelves stores.items)))
        (map D.tells result.drivers.items)
        (map (λ shelf. map S.tells shelf) (shelves result.stores.items)) }
    ensures steady { ((w : ℕ) → IfSome (slice_get
        (starts_of parts.items (map D.tells drivers.items)
        (map (λ shelf. map S.tells shelf) (shelves stores.items))) w) Suffices)
        → IsNotOfStore result.fault × ((w : ℕ) (back : Back
        (starts_of parts.items (map D.tells drivers.items)
        (map (λ shelf. map S.tells shelf) (shelves stores.items)))
        (map D.tells result.drivers.items)
        (map (λ shelf. map S.tells shelf) (shelves result.stores.items)) w)
        → back.store.faults ≡ back.start.store.faults) }
    ensures untold { (w : ℕ) (damage : Damage) → result.fault ≡ Some (fault.Damaged w damage)
        → IfSome (slice_get (starts_of parts.items (map D.tells drivers.items)
        (map (λ shelf. map S.tells shelf) (shelves stores.items))) w)
        (λ start. start.store.pages ≡ None) }
    ensures unfailing { ((from to after : D.rules.State) (f : DriverFault)
        → D.rules.Stops from to f after → ⊥)
        → AreTold (starts_of parts.items (map D.tells drivers.items)
        (map (λ shelf. map S.tells shelf) (shelves stores.items)))
        → IsNotOfDriver result.fault }
    ensures pages { (w : ℕ) (back : Back
        (starts_of parts.items (map D.tells drivers.items)
        (map (λ shelf. map S.tells shelf) (shelves stores.items)))
        (map D.tells result.drivers.items)
        (map (λ shelf. map S.tells shelf) (shelves result.stores.items)) w)
        → TellsAlike back.start.store back.store }
{
    let mut drivers = drivers;
    let mut stores = stores;
    let Ok((mut link, mut machines)) = room(alloc, parts.len() as u16) else {
        return Ended {
            drivers,
            stores,
            fault: Some(RunFault::Memory),
        };
    };
    let fault = run_all(
        alloc,
        parts,
        &mut drivers,
        &mut stores,
        &mut machines,
        &mut link,
    );
    close_all(&mut machines, &mut drivers, &mut stores);
    machines.destroy_empty();
    Ended {
        drivers,
        stores,
        fault,
    }
}
