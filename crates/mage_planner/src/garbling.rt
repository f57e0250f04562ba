// A memory program is garbled over stores of the desk, into the stream files of its workers.
ghost use Rattle.std.specs.Prelude.{◌≡◌, ◌≤◌, ◌<◌, ℕ, List, length, map, IsTrue, IsSome, IfOk};
ghost use Rattle.mage_base.specs.Desk.{DeskTold};
ghost use Rattle.mage_lending.specs.Names.{spelled};
ghost use Rattle.mage_lending.specs.Stores.{told_on};
ghost use Rattle.mage_core.specs.declared.fault.RunFault.TheVariants as fault;
ghost use Rattle.mage_planner.specs.Answer.{StoresAreSound};
ghost use Rattle.mage_planner.specs.Outcome.{Done};
ghost use Rattle.mage_planner.specs.Ran.{HasLent, HasOpened, ended_so, stopped_by, unopened_by};
ghost use Rattle.mage_planner.specs.Steps.{IsNoDeskFault};
ghost use Rattle.mage_planner.specs.Work.{CanBeGarbled, IsGarblingOf};
ghost use Rattle.mage_planner.specs.Writing.{Performs};

use crate::Refusal;
use crate::running::{lend, orders_of};
use crate::work::Garbling;
use mage_base::{Desk, DeskError, Failed};
use mage_core::RunFault;
use mage_lending::{WorkerSinks, close_sinks, give_stores_back, open_sinks};
use mage_solo::{Garbled, run_garbling};
use std::alloc::Global;

// What stopped a run that garbled: a fault of its driver is one of a sink, and so the desk's.
fn of_fault(fault: RunFault) -> Refusal
    ensures { result ≡ stopped_by fault }
{
    match fault {
        RunFault::Store { worker } => Refusal::Store { worker },
        RunFault::Damaged { worker, damage } => Refusal::Damaged { worker, damage },
        RunFault::Driver {
            worker: _,
            fault: _,
        } => Refusal::Desk,
        RunFault::Memory => Refusal::Memory,
    }
}

// What stopped a run, or closing its streams.
fn ended(fault: Option<RunFault>, closed: Result<(), Failed>) -> Result<(), Refusal>
    ensures { result ≡ ended_so fault closed }
{
    match fault {
        Some(fault) => Err(of_fault(fault)),
        None => match closed {
            Ok(()) => Ok(()),
            Err(Failed) => Err(Refusal::Desk),
        },
    }
}

/// Why streams weren't opened: opening one never finds it too long.
pub fn unopened(error: DeskError) -> Refusal
    ensures { result ≡ unopened_by error }
{
    match error {
        DeskError::Fault => Refusal::Desk,
        DeskError::TooLong => Refusal::Desk,
        DeskError::Memory => Refusal::Memory,
    }
}

// Garbles into streams that were just opened, over stores that were just lent; gives these back and closes those in every case.
fn garble_into<D: Desk>(
    alloc: Global,
    desk: &mut D,
    garbling: Garbling<'_>,
    stores: Vec<Vec<D::Pages>>,
    streams: WorkerSinks<D::Output>,
) -> Result<(), Refusal>
    requires can { CanBeGarbled garbling }
    requires opened { (before : DeskTold) × HasOpened before garbling
        (told_on D.Pages.tells stores.items) (spelled streams.names.items)
        (map D.Output.tells streams.sinks.items) (D.tells desk.old) }
    ensures performs { (done : Done) (before : DeskTold) → IsGarblingOf garbling.entry done
        → HasOpened before garbling.entry (told_on D.Pages.tells stores.items)
        (spelled streams.names.items) (map D.Output.tells streams.sinks.items) (D.tells desk.old)
        → Performs done result before (D.tells desk.new) }
    ensures sound { (before : DeskTold) → HasOpened before garbling.entry
        (told_on D.Pages.tells stores.items) (spelled streams.names.items)
        (map D.Output.tells streams.sinks.items) (D.tells desk.old)
        → IsNoDeskFault result → StoresAreSound before (D.tells desk.new) }
    ensures steady { (done : Done) (before : DeskTold) → IsGarblingOf garbling.entry done
        → HasOpened before garbling.entry (told_on D.Pages.tells stores.items)
        (spelled streams.names.items) (map D.Output.tells streams.sinks.items) (D.tells desk.old)
        → IsTrue before.steady → IsTrue before.stores_tell_pages → IsSome before.files
        → IsNoDeskFault result × ((D.tells desk.new).faults ≡ before.faults) }
{
    let Garbling {
        parts,
        seed,
        garbler,
        stream: _,
        rooms: _,
    } = garbling;
    let WorkerSinks { names, sinks } = streams;
    let Garbled {
        fault,
        sinks,
        stores,
    } = run_garbling(alloc, parts, seed, garbler, sinks, stores);
    give_stores_back(desk, stores);
    let closed = close_sinks(desk, names.as_slice(), sinks);
    ended(fault, closed)
}

// Opens the streams, and garbles over stores that were just lent, which are given back in every case.
fn garble_over<D: Desk>(
    alloc: Global,
    desk: &mut D,
    garbling: Garbling<'_>,
    stores: Vec<Vec<D::Pages>>,
) -> Result<(), Refusal>
    requires can { CanBeGarbled garbling }
    requires lent { (before : DeskTold) × HasLent 16 before garbling.parts.items
        (told_on D.Pages.tells stores.items) (D.tells desk.old) }
    ensures performs { (done : Done) (before : DeskTold) → IsGarblingOf garbling.entry done
        → HasLent 16 before garbling.entry.parts.items (told_on D.Pages.tells stores.items)
        (D.tells desk.old) → Performs done result before (D.tells desk.new) }
    ensures sound { (before : DeskTold) → HasLent 16 before garbling.entry.parts.items
        (told_on D.Pages.tells stores.items) (D.tells desk.old)
        → IsNoDeskFault result → StoresAreSound before (D.tells desk.new) }
    ensures steady { (done : Done) (before : DeskTold) → IsGarblingOf garbling.entry done
        → HasLent 16 before garbling.entry.parts.items (told_on D.Pages.tells stores.items)
        (D.tells desk.old)
        → IsTrue before.steady → IsTrue before.stores_tell_pages → IsSome before.files
        → IsNoDeskFault result × ((D.tells desk.new).faults ≡ before.faults) }
{
    match open_sinks(alloc, desk, garbling.stream, &garbling.rooms) {
        Ok(streams) => garble_into(alloc, desk, garbling, stores, streams),
        Err(error) => {
            give_stores_back(desk, stores);
            Err(unopened(error))
        }
    }
}

/// Garbles a memory program: asks for the stores of its workers, in their order, opens their stream files, each with room for its
/// stream, runs, gives the stores back and closes the files in every case.
pub fn garble<D: Desk>(alloc: Global, desk: &mut D, garbling: Garbling<'_>) -> Result<(), Refusal>
    requires { CanBeGarbled garbling }
    ensures performs { (done : Done) → IsGarblingOf garbling.entry done
        → Performs done result (D.tells desk.old) (D.tells desk.new) }
    ensures steady { (done : Done) → IsGarblingOf garbling.entry done
        → IsTrue (D.tells desk.old).steady → IsTrue (D.tells desk.old).stores_tell_pages
        → IsSome (D.tells desk.old).files
        → IsNoDeskFault result × ((D.tells desk.new).faults ≡ (D.tells desk.old).faults) }
    ensures sound { IsNoDeskFault result → StoresAreSound (D.tells desk.old) (D.tells desk.new) }
{
    let orders = orders_of(alloc, &garbling.parts, 16)?;
    let stores = lend(alloc, desk, &orders)?;
    garble_over(alloc, desk, garbling, stores)
}
