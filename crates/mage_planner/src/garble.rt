// `solo` over the garbler: the memory program of a source, and what it is garbled from.
ghost use Rattle.std.specs.Prelude.{◌≡◌, ◌≤◌, ℕ, List, Ok, All, map, true, IfSome, IfOk};
ghost use Rattle.mage_instr.specs.Limits.{AreInRange};
ghost use Rattle.mage_instr.specs.Sound.{IsSound};
ghost use Rattle.mage_words.specs.Words as words;
ghost use Rattle.mage_planner.specs.Garbled.{asked_by};
ghost use Rattle.mage_planner.specs.Outcome.{garble_outcome};
ghost use Rattle.mage_planner.specs.Found.{Found, found_in};
ghost use Rattle.mage_planner.specs.Steps.{Gives, StepCounted, IsNoDeskFault};
ghost use Rattle.mage_stream_length.specs.Length.{length_of};
ghost use Rattle.mage_planner.specs.Work.{CanBeGarbled, GivesSo, IsGarblingOf};

use crate::Refusal;
use crate::deal::read_seed;
use crate::inputs::read_numbers;
use crate::plan::planned;
use crate::solo::parts_of;
use crate::sources::read_source;
use crate::work::Garbling;
use mage_base::Desk;
use mage_instr::{Limits, Party, Program};
use mage_stream_length::stream_length;
use std::alloc::Global;

// How many bytes the stream of each worker may have.
fn rooms_of(alloc: Global, program: &Program) -> Result<Vec<u64>, Refusal>
    requires { All IsSound program.now.workers }
    ensures quiet { (faults : ℕ) → StepCounted faults faults result }
    ensures no_fault { IsNoDeskFault result }
    ensures rooms { Gives true (λ rooms. rooms.items) result
        (Ok (map length_of program.now.workers)) }
{
    let mut rooms = Vec::new(alloc);
    for instrs in program.workers.as_slice() {
        rooms
            .push(stream_length(instrs.as_slice()))
            .map_err(|_| Refusal::Memory)?;
    }
    Ok(rooms)
}

/// What is to be garbled, and into which files.
#[derive(Clone, Copy)]
pub struct GarbleRequest<'a> {
    /// The file of the source.
    pub source: &'a str,
    pub limits: Limits,
    /// The file of the garbler's input text. Without one the text is empty.
    pub garbler: Option<&'a str>,
    /// The file of the seed.
    pub seed: &'a str,
    /// What the names of the stream files begin with.
    pub stream: &'a str,
}

/// What `solo` garbles, found out in the order of work.
#[tactic(auto, unfolding(crate::specs::Outcome::garble_outcome))]
pub fn garble<'a, D: Desk>(
    alloc: Global,
    request: GarbleRequest<'a>,
    desk: &mut D,
) -> Result<Garbling<'a>, Refusal>
    requires limits { AreInRange request.limits }
    ensures told { IfSome (D.tells desk.old).files (λ files.
        GivesSo (D.tells desk.old).steady IsGarblingOf result
        (garble_outcome (found_in files (words.Solo (asked_by request.entry)))
        request.entry.limits request.entry.stream.now)) }
    ensures some { (found : Found) × GivesSo true IsGarblingOf result
        (garble_outcome found request.entry.limits request.entry.stream.now) }
    ensures can { IfOk result CanBeGarbled }
    ensures cause { StepCounted (D.tells desk.old).faults (D.tells desk.new).faults result }
    ensures rest { D.tells desk.new
        ≡ record (D.tells desk.old) { faults = (D.tells desk.new).faults } }
{
    let loaded = read_source(alloc, desk, request.source)?;
    let planned = planned(alloc, &loaded, request.limits)?;
    let rooms = rooms_of(alloc, &loaded.program)?;
    let parts = parts_of(alloc, planned.program)?;
    let garbler = read_numbers(alloc, desk, request.garbler, &loaded, Party::Garbler)?;
    let seed = read_seed(alloc, desk, request.seed)?;
    Ok(Garbling {
        parts,
        seed,
        garbler,
        stream: request.stream,
        rooms,
    })
}
