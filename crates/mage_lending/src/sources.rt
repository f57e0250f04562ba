// The workers' files that are read.
ghost use Rattle.std.specs.Prelude.{◌≡◌, ◌≤◌, [], length, map, IsTrue, IsSome, IfSome, IfOk, OnOk, vec_capacity};
ghost use Rattle.std.specs.List.{All};
ghost use Rattle.mage_base.specs.Desk.{FaultCounted, IsNoFault, IsNotTooLong};
ghost use Rattle.mage_lending.specs.Names.{worker_files, spelled};
ghost use Rattle.mage_lending.specs.Sources.{AreSources, NoneHaveFailed, with_source_faults};

use crate::names::worker_file;
use mage_base::{Desk, DeskError, Memory};
use std::alloc::Global;

/// The workers' sources, and the names of their files, in the order of the workers.
#[derive(Drop)]
pub struct WorkerSources<I> {
    pub names: Vec<String>,
    pub sources: Vec<I>,
}

// Opens the files in order, into room for their names and sources. With any answer but Ok the first of them are open.
fn open_each<D: Desk>(
    alloc: Global,
    desk: &mut D,
    prefix: &str,
    workers: u16,
    opened: &mut WorkerSources<D::Input>,
) -> Result<(), DeskError>
    requires no_name { opened.old.names.items ≡ [] }
    requires no_source { opened.old.sources.items ≡ [] }
    requires names { workers ≤ vec_capacity opened.old.names }
    requires sources { workers ≤ vec_capacity opened.old.sources }
    ensures some { length opened.new.sources.items ≤ workers }
    ensures all { OnOk result (length opened.new.sources.items ≡ workers) }
    ensures names { spelled opened.new.names.items
        ≡ worker_files prefix.now 0 (length opened.new.sources.items) }
    ensures sources { AreSources (D.tells desk.old)
        (worker_files prefix.now 0 (length opened.new.sources.items))
        (map D.Input.tells opened.new.sources.items) }
    ensures short { IsNotTooLong result }
    ensures cause { FaultCounted (D.tells desk.old).faults (D.tells desk.new).faults result }
    ensures steady { IsTrue (D.tells desk.old).steady
        → IfSome (D.tells desk.old).files (λ files.
        All (λ name. IsSome (files name)) (worker_files prefix.now 0 workers) → IsNoFault result) }
    ensures rest { D.tells desk.new
        ≡ record (D.tells desk.old) { faults = (D.tells desk.new).faults } }
{
    for worker in 0..workers {
        let Ok(name) = worker_file(alloc, prefix, worker) else {
            return Err(DeskError::Memory);
        };
        let source = desk.open_in(alloc, name.as_str())?;
        opened.names.push_reserved(name);
        opened.sources.push_reserved(source);
    }
    Ok(())
}

// Room for so many sources and their names.
fn room<I>(alloc: Global, workers: u16) -> Result<WorkerSources<I>, Memory>
    ensures no_name { IfOk result (λ room. room.names.items ≡ []) }
    ensures no_source { IfOk result (λ room. room.sources.items ≡ []) }
    ensures names { IfOk result (λ room. workers ≤ vec_capacity room.names) }
    ensures sources { IfOk result (λ room. workers ≤ vec_capacity room.sources) }
{
    let names = Vec::with_capacity(alloc, workers as usize)?;
    let sources = Vec::with_capacity(alloc, workers as usize)?;
    Ok(WorkerSources { names, sources })
}

/// Opens the file of each worker to be read, in the order of the workers. The names are `prefix`, a dot and the worker's number.
///
/// `Fault` where a file isn't there or the desk failed, and `Memory` where there is none; what was opened by then is closed.
pub fn open_sources<D: Desk>(
    alloc: Global,
    desk: &mut D,
    prefix: &str,
    workers: u16,
) -> Result<WorkerSources<D::Input>, DeskError>
    ensures names { IfOk result (λ opened.
        spelled opened.names.items ≡ worker_files prefix.now 0 workers) }
    ensures sources { IfOk result (λ opened. AreSources (D.tells desk.old)
        (worker_files prefix.now 0 workers) (map D.Input.tells opened.sources.items)) }
    ensures count { IfOk result (λ opened. (length opened.names.items ≡ workers)
        × (length opened.sources.items ≡ workers)) }
    ensures short { IsNotTooLong result }
    ensures cause { FaultCounted (D.tells desk.old).faults (D.tells desk.new).faults result }
    ensures steady { IsTrue (D.tells desk.old).steady
        → IfSome (D.tells desk.old).files (λ files.
        All (λ name. IsSome (files name)) (worker_files prefix.now 0 workers) → IsNoFault result) }
    ensures rest { D.tells desk.new
        ≡ record (D.tells desk.old) { faults = (D.tells desk.new).faults } }
{
    let Ok(mut opened) = room(alloc, workers) else {
        return Err(DeskError::Memory);
    };
    match open_each(alloc, desk, prefix, workers, &mut opened) {
        Ok(()) => Ok(opened),
        Err(error) => {
            let WorkerSources { names, sources } = opened;
            close_sources(desk, names.as_slice(), sources);
            Err(error)
        }
    }
}

/// Closes the workers' sources, in the order of the workers. Their faults are counted: the count never falls, and stays where no
/// source has one.
pub fn close_sources<D: Desk>(desk: &mut D, names: &[String], sources: Vec<D::Input>)
    requires { length names.now ≡ length sources.items }
    ensures counted { D.tells desk.new ≡ record (D.tells desk.old) {
      faults = with_source_faults (D.tells desk.old).faults
          (map D.Input.tells sources.items);
    } }
    ensures rises { (D.tells desk.old).faults ≤ (D.tells desk.new).faults }
    ensures quiet { NoneHaveFailed (map D.Input.tells sources.items)
        → (D.tells desk.new).faults ≡ (D.tells desk.old).faults }
{
    let mut worker = 0;
    for source in sources {
        desk.close_in(names[worker].as_str(), source);
        worker += 1;
    }
}
