// The workers of a world, which take events one by one.
ghost use Rattle.std.specs.Prelude.{◌≡◌, ◌≤◌, length, IfOk, IfErr};
ghost use Rattle.mage_network.specs.Slots as net;
ghost use Rattle.mage_verify.specs.Runs.{AreVerified};
ghost use Rattle.mage_world.specs.Ready.{Readies};
ghost use Rattle.mage_world.specs.Worlds.{IsTurn, IsService, seen, opened, AllRun, Applies, HappensAt};

use crate::event::{ApplyError, Event, Kind};
use crate::ready::first_ready;
use crate::room::room_for;
use crate::services::{claim_slot, serve_slot};
use crate::turns::take_turn;
use crate::worker::Worker;
use mage_base::Memory;
use mage_circuit::Scratch;
use mage_driver::Driver;
use mage_link::QueueLink;
use mage_verify::Part;
use std::alloc::Global;
use std::marker::Model;

/// The workers of a memory program, their drivers, their stores and the links between them.
#[derive(Drop)]
pub(crate) struct Course<D: Driver> {
    parts: Vec<Part>,
    drivers: Vec<D>,
    workers: Vec<Worker>,
    links: QueueLink,
    scratch: Scratch<D>,
}

impl<D: Driver> Model for Course<D> {
    ghost use Rattle.std.specs.Prelude.{map};
    ghost use Rattle.mage_world.specs.Seats.{state_of};
    ghost use Rattle.mage_world.specs.Worlds.{WorldState, IsWorld};

    ghost Value = { WorldState D };

    ghost view = { λ world. record {
      parts = world.parts.items;
      drivers = world.drivers.items;
      workers = map state_of world.workers.items;
      capacity = world.links.capacity;
      links = world.links.links;
    } };

    ghost invariant = { λ world. IsWorld D.rules D.tells world.parts.items world.drivers.items
        world.workers.items world.links.workers };
}

impl<D: Driver> Course<D> {
    /// The workers before the first event.
    pub(crate) fn make(
        alloc: Global,
        parts: Vec<Part>,
        drivers: Vec<D>,
        capacity: u16,
    ) -> Result<Course<D>, (Vec<D>, Memory)>
        requires verified { AreVerified parts.items }
        requires drivers { length drivers.items ≡ length parts.items }
        requires running { AllRun D.tells drivers.items }
        requires capacity { 1 ≤ capacity }
        ensures opened { IfOk result (λ world. seen D.rules D.tells world
            ≡ opened D.rules D.tells parts.items drivers.items capacity) }
        ensures back { IfErr result (λ back. back.0.items ≡ drivers.items) }
    {
        match room_for(alloc, parts.as_slice(), drivers.as_slice(), capacity) {
            Ok(room) => Ok(Course {
                parts,
                drivers,
                workers: room.workers,
                links: room.links,
                scratch: room.scratch,
            }),
            Err(memory) => Err((drivers, memory)),
        }
    }

    /// Does an event.
    pub(crate) fn apply(&mut self, event: Event) -> Result<(), ApplyError>
        ensures { Applies D.rules (seen D.rules D.tells self.old) (seen D.rules D.tells self.new)
            event result }
    {
        match event {
            Event::Do { w } => self.turn(w, Kind::Do),
            Event::Ask { w } => self.turn(w, Kind::Ask),
            Event::Claim { w, slot } => self.claim(w, slot),
            Event::Serve { w, slot } => self.serve(w, slot),
            Event::Finish { w } => self.turn(w, Kind::Finish),
            Event::Push { w } => self.turn(w, Kind::Push),
            Event::Pop { w } => self.turn(w, Kind::Pop),
        }
    }

    // A turn of a worker.
    fn turn(&mut self, w: u16, kind: Kind) -> Result<(), ApplyError>
        ensures { HappensAt D.rules (seen D.rules D.tells self.old) (seen D.rules D.tells self.new)
            w (IsTurn kind) result }
    {
        let n = usize::from(w);
        if n >= self.parts.len() {
            return Err(ApplyError::NotEnabled);
        }
        take_turn(
            &mut self.drivers[n],
            &self.parts[n],
            &mut self.workers[n],
            &mut self.links,
            &mut self.scratch,
            kind,
        )
    }

    // The transfer of a slot is claimed.
    fn claim(&mut self, w: u16, slot: u16) -> Result<(), ApplyError>
        ensures { HappensAt D.rules (seen D.rules D.tells self.old) (seen D.rules D.tells self.new)
            w (IsService (net.Claims slot)) result }
    {
        let n = usize::from(w);
        if n >= self.parts.len() {
            return Err(ApplyError::NotEnabled);
        }
        claim_slot(&self.drivers[n], &self.parts[n], &mut self.workers[n], slot)
    }

    // The transfer of a slot is served.
    fn serve(&mut self, w: u16, slot: u16) -> Result<(), ApplyError>
        ensures { HappensAt D.rules (seen D.rules D.tells self.old) (seen D.rules D.tells self.new)
            w (IsService (net.Serves slot)) result }
    {
        let n = usize::from(w);
        if n >= self.parts.len() {
            return Err(ApplyError::NotEnabled);
        }
        serve_slot(&self.drivers[n], &self.parts[n], &mut self.workers[n], slot)
    }

    /// The first event that is enabled: of the lowest worker, and of this one a turn before claims and services.
    pub(crate) fn ready(&self) -> Option<Event>
        ensures { Readies D.rules (seen D.rules D.tells self.now) result }
    {
        first_ready(
            self.drivers.as_slice(),
            self.parts.as_slice(),
            self.workers.as_slice(),
            &self.links,
        )
    }

    /// The drivers, one for each worker.
    pub(crate) fn drivers(&self) -> &[D]
        ensures { result.now ≡ self.now.drivers }
    {
        self.drivers.as_slice()
    }
}
