// Files that are written.
ghost use Rattle.std.specs.Prelude.{◌≡◌, ◌≤◌, [], ◌∷◌, length, IsTrue, IfSome, IfOk, IsSome};
ghost use Rattle.mage_base.specs.Desk.{HandsSink, files_with};
ghost use Rattle.mage_planner.specs.Steps.{StepCounted, IsNoDeskFault};
ghost use Rattle.mage_planner.specs.Writing.{Writes, Opens, Fills};

use crate::Refusal;
use mage_base::{Desk, DeskError, Sink};
use std::alloc::Global;

// Makes a file empty, to be written with so many bytes.
fn open<D: Desk>(alloc: Global, desk: &mut D, name: &str, room: u64) -> Result<D::Output, Refusal>
    ensures sink { IfOk result (λ sink.
        HandsSink (D.tells desk.old) room (D.Output.tells sink)) }
    ensures opens { Opens name.now result (D.tells desk.old) (D.tells desk.new) }
    ensures steady { IsTrue (D.tells desk.old).steady → IsNoDeskFault result }
{
    match desk.open_out(alloc, name, room) {
        Ok(sink) => Ok(sink),
        Err(DeskError::Memory) => Err(Refusal::Memory),
        Err(_) => Err(Refusal::Desk),
    }
}

// Puts the bytes into a new sink, and closes its file.
fn fill<D: Desk>(desk: &mut D, name: &str, sink: D::Output, bytes: &[u8]) -> Result<(), Refusal>
    requires { IfSome (D.tells desk.old).files (λ files. IsSome (files name.now)) }
    ensures fills { HandsSink (D.tells desk.old) (length bytes.now) (D.Output.tells sink)
        → Fills name.now bytes.now result (D.tells desk.old) (D.tells desk.new) }
    ensures steady { HandsSink (D.tells desk.old) (length bytes.now) (D.Output.tells sink)
        → IsTrue (D.tells desk.old).steady → IsNoDeskFault result }
{
    let mut sink = sink;
    let put = sink.put(bytes);
    let closed = desk.close_out(name, sink);
    if put.is_ok() && closed.is_ok() {
        Ok(())
    } else {
        Err(Refusal::Desk)
    }
}

/// Writes a file.
pub fn write_file<D: Desk>(
    alloc: Global,
    desk: &mut D,
    name: &str,
    bytes: &[u8],
) -> Result<(), Refusal>
    ensures writes { Writes (record { name = name.now; bytes = bytes.now } ∷ []) result
        (D.tells desk.old) (D.tells desk.new) }
    ensures steady { IsTrue (D.tells desk.old).steady → IsNoDeskFault result }
{
    let sink = open(alloc, desk, name, bytes.len() as u64)?;
    fill(desk, name, sink, bytes)
}
