// The workers' files that are written.
ghost use Rattle.std.specs.Prelude.{◌≡◌, ◌≤◌, ◌++◌, ◌∷◌, ℕ, List, [], length, map, take, IsTrue, IsSome, IfSome, IfOk, IsOk, OnOk, vec_capacity};
ghost use Rattle.std.specs.List.{All};
ghost use Rattle.mage_base.specs.Desk.{DeskTold, FaultCounted, IsNoFault, IsNotTooLong};
ghost use Rattle.mage_base.specs.Sink.{SinkTold};
ghost use Rattle.mage_lending.specs.Names.{worker_files, spelled};
ghost use Rattle.mage_lending.specs.Sinks.{with_empty, AreOpened, HaveFiles, OpenedCounted, OpensAll, ClosesAll};

use crate::names::worker_file;
use mage_base::{Desk, DeskError, Failed, Memory};
use std::alloc::Global;

/// The workers' sinks, and the names of their files, in the order of the workers.
#[derive(Drop)]
pub struct WorkerSinks<O> {
    pub names: Vec<String>,
    pub sinks: Vec<O>,
}

// Opens the files in order, into room for their names and sinks. With any answer but Ok the first of them are open.
fn open_each<D: Desk>(
    alloc: Global,
    desk: &mut D,
    prefix: &str,
    rooms: &[u64],
    opened: &mut WorkerSinks<D::Output>,
) -> Result<(), DeskError>
    requires few { length rooms.now ≤ 65535 }
    requires no_name { opened.old.names.items ≡ [] }
    requires no_sink { opened.old.sinks.items ≡ [] }
    requires names { length rooms.now ≤ vec_capacity opened.old.names }
    requires sinks { length rooms.now ≤ vec_capacity opened.old.sinks }
    ensures some { length opened.new.sinks.items ≤ length rooms.now }
    ensures all { OnOk result (length opened.new.sinks.items ≡ length rooms.now) }
    ensures names { spelled opened.new.names.items
        ≡ worker_files prefix.now 0 (length opened.new.sinks.items) }
    ensures sinks { AreOpened (D.tells desk.old)
        (take (length opened.new.sinks.items) rooms.now)
        (map D.Output.tells opened.new.sinks.items) }
    ensures short { IsNotTooLong result }
    ensures cause { FaultCounted (D.tells desk.old).faults (D.tells desk.new).faults result }
    ensures steady { IsTrue (D.tells desk.old).steady → IsNoFault result }
    ensures rest { D.tells desk.new ≡ record (D.tells desk.old) {
      files = with_empty (D.tells desk.old).files
          (worker_files prefix.now 0 (length opened.new.sinks.items));
      faults = (D.tells desk.new).faults;
    } }
{
    for (worker, room) in rooms.iter().enumerate() {
        let Ok(name) = worker_file(alloc, prefix, worker as u16) else {
            return Err(DeskError::Memory);
        };
        let sink = desk.open_out(alloc, name.as_str(), *room)?;
        opened.names.push_reserved(name);
        opened.sinks.push_reserved(sink);
    }
    Ok(())
}

// Room for so many sinks and their names.
fn room<O>(alloc: Global, workers: usize) -> Result<WorkerSinks<O>, Memory>
    ensures no_name { IfOk result (λ room. room.names.items ≡ []) }
    ensures no_sink { IfOk result (λ room. room.sinks.items ≡ []) }
    ensures names { IfOk result (λ room. workers ≤ vec_capacity room.names) }
    ensures sinks { IfOk result (λ room. workers ≤ vec_capacity room.sinks) }
{
    let names = Vec::with_capacity(alloc, workers)?;
    let sinks = Vec::with_capacity(alloc, workers)?;
    Ok(WorkerSinks { names, sinks })
}

/// Makes the file of each worker empty, in the order of the workers, to be written with at most so many bytes as the
/// worker's room. The names are `prefix`, a dot and the worker's number.
///
/// `Fault` where the desk failed, and `Memory` where there is none; the files that were opened by then are closed again, and
/// stay empty.
pub fn open_sinks<D: Desk>(
    alloc: Global,
    desk: &mut D,
    prefix: &str,
    rooms: &[u64],
) -> Result<WorkerSinks<D::Output>, DeskError>
    requires { length rooms.now ≤ 65535 }
    ensures names { IfOk result (λ opened.
        spelled opened.names.items ≡ worker_files prefix.now 0 (length rooms.now)) }
    ensures sinks { IfOk result (λ opened. AreOpened (D.tells desk.old) rooms.now
        (map D.Output.tells opened.sinks.items)) }
    ensures there { IfOk result (λ opened.
        HaveFiles (D.tells desk.new).files (spelled opened.names.items)) }
    ensures count { IfOk result (λ opened. (length opened.names.items ≡ length rooms.now)
        × (length opened.sinks.items ≡ length rooms.now)) }
    ensures cause { OpenedCounted (D.tells desk.old).faults (D.tells desk.new).faults result }
    ensures steady { IsTrue (D.tells desk.old).steady
        → IsNoFault result × ((D.tells desk.new).faults ≡ (D.tells desk.old).faults) }
    ensures rest { OpensAll (D.tells desk.old) (D.tells desk.new) prefix.now (length rooms.now)
        result }
{
    let Ok(mut opened) = room(alloc, rooms.len()) else {
        return Err(DeskError::Memory);
    };
    match open_each(alloc, desk, prefix, rooms, &mut opened) {
        Ok(()) => Ok(opened),
        Err(error) => {
            let WorkerSinks { names, sinks } = opened;
            let _ = close_sinks(desk, names.as_slice(), sinks);
            Err(error)
        }
    }
}

// Closes a file after others were closed.
fn close_next<D: Desk>(
    desk: &mut D,
    closed: Result<(), Failed>,
    name: &str,
    sink: D::Output,
) -> Result<(), Failed>
    requires { IfSome (D.tells desk.old).files (λ files. IsSome (files name.now)) }
    ensures closed { (before : DeskTold) (names : List (List ℕ)) (sinks : List SinkTold)
        → length names ≡ length sinks
        → ClosesAll before (D.tells desk.old) names sinks closed
        → ClosesAll before (D.tells desk.new) (names ++ name.now ∷ [])
        (sinks ++ D.Output.tells sink ∷ []) result }
    ensures there { (names : List (List ℕ)) → HaveFiles (D.tells desk.old).files names
        → HaveFiles (D.tells desk.new).files names }
    ensures rises { (D.tells desk.old).faults ≤ (D.tells desk.new).faults }
    ensures quiet { (D.Output.tells sink).faults ≡ 0 → OnOk result
        (IsOk closed × ((D.tells desk.new).faults ≡ (D.tells desk.old).faults)) }
    ensures steady { IsTrue (D.tells desk.old).steady → IsOk closed → IsOk result }
    ensures stays { (D.tells desk.new).steady ≡ (D.tells desk.old).steady }
{
    let this = desk.close_out(name, sink);
    match closed {
        Ok(()) => this,
        Err(Failed) => Err(Failed),
    }
}

/// Closes the workers' files, in the order of the workers, also after one that can't be closed: each is then what its sink
/// took, or after `Failed` a front of that.
pub fn close_sinks<D: Desk>(
    desk: &mut D,
    names: &[String],
    sinks: Vec<D::Output>,
) -> Result<(), Failed>
    requires count { length names.now ≡ length sinks.items }
    requires there { HaveFiles (D.tells desk.old).files (spelled names.now) }
    ensures closed { ClosesAll (D.tells desk.old) (D.tells desk.new) (spelled names.now)
        (map D.Output.tells sinks.items) result }
    ensures rises { (D.tells desk.old).faults ≤ (D.tells desk.new).faults }
    ensures quiet { All (λ sink. (D.Output.tells sink).faults ≡ 0) sinks.items
        → OnOk result ((D.tells desk.new).faults ≡ (D.tells desk.old).faults) }
    ensures steady { IsTrue (D.tells desk.old).steady → IsOk result }
{
    let mut closed = Ok(());
    let mut worker = 0;
    for sink in sinks {
        closed = close_next(desk, closed, names[worker].as_str(), sink);
        worker += 1;
    }
    closed
}
