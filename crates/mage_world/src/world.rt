// The world.
ghost use Rattle.std.specs.Prelude.{◌≡◌, ◌≤◌, ◌⊎◌, length, None, IfOk, IfErr, IfSome};
ghost use Rattle.mage_verify.specs.Runs.{AreVerified};
ghost use Rattle.mage_world.specs.Progress.{IsFinal, HasFailed};
ghost use Rattle.mage_world.specs.Ready.{Readies};
ghost use Rattle.mage_world.specs.Worlds.{seen, opened, AllRun, Applies};

use crate::course::Course;
use crate::event::{ApplyError, Event};
use mage_base::Memory;
use mage_driver::Driver;
use mage_verify::Part;
use std::alloc::Global;
use std::marker::Model;

/// The workers of a memory program, their drivers, their stores and the links between them, as a value that takes events
/// one by one.
#[derive(Drop)]
pub struct World<D: Driver> {
    course: Course<D>,
}

impl<D: Driver> Model for World<D> {
    ghost use Rattle.mage_world.specs.Worlds.{WorldState, seen};
    ghost use Rattle.mage_world.specs.Progress.{IsOnItsWay};

    ghost Value = { WorldState D };

    ghost view = { λ world. world.course };

    ghost invariant = { λ world. IsOnItsWay (seen D.rules D.tells world.course) };
}

impl<D: Driver> World<D> {
    /// A world before its first event. The parts are those of one verified program, in order, with a running driver each.
    /// All memory is taken here: the frames of each worker, a page for each slot, the pages of its store, and links with
    /// room for `capacity` wires. With `Memory` the drivers come back.
    pub fn make(
        alloc: Global,
        parts: Vec<Part>,
        drivers: Vec<D>,
        capacity: u16,
    ) -> Result<World<D>, (Vec<D>, Memory)>
        requires verified { AreVerified parts.items }
        requires drivers { length drivers.items ≡ length parts.items }
        requires running { AllRun D.tells drivers.items }
        requires capacity { 1 ≤ capacity }
        ensures opened { IfOk result (λ world. seen D.rules D.tells world
            ≡ opened D.rules D.tells parts.items drivers.items capacity) }
        ensures back { IfErr result (λ back. back.0.items ≡ drivers.items) }
    {
        match Course::make(alloc, parts, drivers, capacity) {
            Ok(course) => Ok(World { course }),
            Err(back) => Err(back),
        }
    }

    /// Does an event. `NotEnabled` comes exactly where the event isn't enabled, and then nothing changes. `Driver` comes
    /// where the worker's driver answered this fault at a call of the event; the worker then stays where it stands, and has
    /// no turn any more. It takes no memory.
    pub fn apply(&mut self, event: Event) -> Result<(), ApplyError>
        ensures { Applies D.rules (seen D.rules D.tells self.old) (seen D.rules D.tells self.new)
            event result }
    {
        self.course.apply(event)
    }

    /// An event that is enabled; none exactly where no event is. Where no driver has failed, `None` comes only at the end,
    /// where each worker has done its directives, its driver is finished and no slot is in flight. It is the first event of
    /// the lowest worker that has one, a turn before claims and services. It takes no memory.
    pub fn ready(&self) -> Option<Event>
        ensures enabled { Readies D.rules (seen D.rules D.tells self.now) result }
        ensures ended { result ≡ None → HasFailed (seen D.rules D.tells self.now)
            ⊎ IsFinal (seen D.rules D.tells self.now) }
    {
        self.course.ready()
    }

    /// The drivers, one for each worker.
    pub fn drivers(&self) -> &[D]
        ensures { result.now ≡ self.now.drivers }
    {
        self.course.drivers()
    }
}
