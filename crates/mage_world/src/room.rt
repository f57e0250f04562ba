// The memory of a world.
ghost use Rattle.std.specs.Prelude.{◌≡◌, ◌≤◌, length, IfOk};
ghost use Rattle.mage_instr.specs.Opcodes.{most_workers};
ghost use Rattle.mage_link.specs.Queues.{new_queues};
ghost use Rattle.mage_world.specs.Rooms.{AreNewSlots, IsNewWorker, AreNewWorkers};
ghost use Rattle.mage_world.specs.Worlds.{AllRun};

use crate::slot::{Slot, Work};
use crate::worker::Worker;
use mage_base::Memory;
use mage_circuit::Scratch;
use mage_driver::Driver;
use mage_link::QueueLink;
use mage_verify::Part;
use std::alloc::Global;

/// Workers that have done nothing, empty links, and room for the wires of one instruction.
#[derive(Drop)]
pub(crate) struct Room<D: Driver> {
    pub(crate) workers: Vec<Worker>,
    pub(crate) links: QueueLink,
    pub(crate) scratch: Scratch<D>,
}

/// All the memory of a world.
pub(crate) fn room_for<D: Driver>(
    alloc: Global,
    parts: &[Part],
    drivers: &[D],
    capacity: u16,
) -> Result<Room<D>, Memory>
    requires some { (1 ≤ length parts.now) × (length parts.now ≤ most_workers) }
    requires drivers { length drivers.now ≡ length parts.now }
    requires running { AllRun D.tells drivers.now }
    requires capacity { 1 ≤ capacity }
    ensures workers { IfOk result (λ room. AreNewWorkers D.WIRE_BYTES parts.now room.workers.items) }
    ensures links { IfOk result (λ room. room.links ≡ new_queues (length parts.now) capacity) }
{
    let scratch = Scratch::make(alloc, &drivers[0])?;
    let links = QueueLink::make(alloc, parts.len() as u16, capacity)?;
    let workers = workers_for(alloc, parts, D::WIRE_BYTES)?;
    Ok(Room {
        workers,
        links,
        scratch,
    })
}

// A worker for each part.
fn workers_for(alloc: Global, parts: &[Part], wire_bytes: u32) -> Result<Vec<Worker>, Memory>
    requires { wire_bytes ≤ 16 }
    ensures { IfOk result (λ workers. AreNewWorkers wire_bytes parts.now workers.items) }
{
    let mut workers = Vec::with_capacity(alloc, parts.len())?;
    for part in parts {
        workers.push(new_worker(alloc, part, wire_bytes)?)?;
    }
    Ok(workers)
}

// A worker of a part that has done nothing.
fn new_worker(alloc: Global, part: &Part, wire_bytes: u32) -> Result<Worker, Memory>
    requires { wire_bytes ≤ 16 }
    ensures { IfOk result (λ worker. IsNewWorker wire_bytes part.now worker) }
{
    let _directives = part.directives();
    let limits = part.limits();
    let bytes = limits.page * wire_bytes;
    Ok(Worker {
        place: 0,
        wire: 0,
        finished: false,
        fault: None,
        frames: mage_bank::frames(alloc, limits.frames, bytes)?,
        slots: new_slots(alloc, limits.buffer, bytes)?,
        pages: mage_bank::frames(alloc, part.store_pages(), bytes)?,
    })
}

// So many idle slots, each with room for so many bytes.
fn new_slots(alloc: Global, count: u16, bytes: u32) -> Result<Vec<Slot>, Memory>
    ensures { IfOk result (λ slots. AreNewSlots count bytes slots.items) }
{
    let mut slots = Vec::with_capacity(alloc, count as usize)?;
    for _ in 0..count {
        slots.push(Slot {
            work: Work::Idle,
            bytes: vec![in alloc; 0; bytes as usize]?,
        })?;
    }
    Ok(slots)
}
