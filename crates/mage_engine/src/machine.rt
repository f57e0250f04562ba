// The machine.
ghost use Rattle.std.specs.Prelude.{◌≡◌, None, Ok, IfOk, IfErr};
ghost use Rattle.mage_driver.specs.declared.standing.Standing.TheVariants as standing;
ghost use Rattle.mage_verify.specs.Parts.{WorkerPart};
ghost use Rattle.mage_engine.specs.declared.turn.Turn.TheVariants as turn;
ghost use Rattle.mage_engine.specs.Seen.{seen, directive_at, IsEnded};
ghost use Rattle.mage_engine.specs.Ready.{Serves, Connects, opened};
ghost use Rattle.mage_engine.specs.Steps.{Steps};
ghost use Rattle.mage_engine.specs.Tally.{HasFinished, IsWhole, done_by};

use crate::Turn;
use crate::course::Course;
use mage_base::Memory;
use mage_driver::Driver;
use mage_instr::MachineFault;
use mage_link::LinkPort;
use mage_port::SwapPort;
use mage_verify::Part;
use std::alloc::Global;
use std::marker::Model;
use std::snapshot::Snapshot;

/// What goes through one worker's directives, in steps: over a driver, which makes the gates, and a port, which moves pages.
#[derive(Drop)]
pub struct Machine<D: Driver, P: SwapPort> {
    course: Course<D, P>,
    // The port as it was handed in, for clauses alone.
    first: Snapshot<P>,
}

impl<D: Driver, P: SwapPort> Model for Machine<D, P> {
    ghost use Rattle.mage_engine.specs.Seen.{MachineState, course_seen};
    ghost use Rattle.mage_engine.specs.Tally.{Counts};

    ghost Value = { MachineState D P };

    ghost view = { λ machine. record {
      part = machine.course.part;
      driver = machine.course.driver;
      port = machine.course.port;
      place = machine.course.place;
      wire = machine.course.wire;
      frames = machine.course.frames;
      fault = machine.course.fault;
      first = machine.first.value;
    } };

    ghost invariant = { λ machine. Counts machine.course.fault (P.tells machine.first.value)
        (course_seen D.tells P.tells machine.course) };
}

impl<D: Driver, P: SwapPort> Machine<D, P> {
    /// A machine before the first directive of a part. All of its memory is taken here: the part's frames, room for the wires
    /// of one instruction, and one page. With `Memory` everything comes back.
    pub fn make(
        alloc: Global,
        part: Part,
        driver: D,
        port: P,
    ) -> Result<Machine<D, P>, (Part, D, P, Memory)>
        requires running { (D.tells driver).standing ≡ standing.Running }
        requires port { Serves D.WIRE_BYTES (P.tells port) part }
        ensures opened { IfOk result (λ machine. seen D.tells P.tells machine
            ≡ opened D.rules part (D.tells driver) (P.tells port)) }
        ensures first { IfOk result (λ machine. machine.first ≡ port) }
        ensures handed { IfOk result (λ machine.
            (machine.driver ≡ driver) × (machine.port ≡ port)) }
        ensures back { IfErr result (λ back.
            (back.0 ≡ part) × (back.1 ≡ driver) × (back.2 ≡ port)) }
    {
        let first = Snapshot::of(&port);
        match Course::make(alloc, part, driver, port) {
            Ok(course) => Ok(Machine { course, first }),
            Err(back) => Err(back),
        }
    }

    /// Makes one step: a directive, or one wire of a `Send` or `Recv`; or, past the last directive, the driver's end. It takes
    /// no memory.
    ///
    /// `Blocked` says that a transfer isn't done yet, or that a link is full or empty. After a fault of the driver or the port
    /// every later step answers this fault.
    pub fn step<L: LinkPort>(&mut self, link: &mut L) -> Result<Turn, MachineFault>
        requires { Connects (L.tells link.old) self.old.part }
        ensures step { Steps D.rules (seen D.tells P.tells self.old) (seen D.tells P.tells self.new)
            (L.tells link.old) (L.tells link.new) result }
        ensures ended { IsEnded (seen D.tells P.tells self.old) → result ≡ Ok turn.Ended }
        ensures part { self.new.part ≡ self.old.part }
        ensures first { self.new.first ≡ self.old.first }
        ensures links { (part : WorkerPart) → Connects (L.tells link.old) part
            → Connects (L.tells link.new) part }
    {
        self.advance(link)
    }

    // The same.
    fn advance<L: LinkPort>(&mut self, link: &mut L) -> Result<Turn, MachineFault>
        requires { Connects (L.tells link.old) self.old.part }
        ensures step { Steps D.rules (seen D.tells P.tells self.old) (seen D.tells P.tells self.new)
            (L.tells link.old) (L.tells link.new) result }
        ensures ended { IsEnded (seen D.tells P.tells self.old) → result ≡ Ok turn.Ended }
        ensures first { self.new.first ≡ self.old.first }
    {
        match self.course.fault() {
            Some(fault) => Err(fault),
            None => self.course.step(link),
        }
    }

    /// The driver and the port.
    ///
    /// Where no slot is damaged, the port's counts of finished reads and writes rose since the machine was made by those that the
    /// directives finish which were done; where it stands past the last one, by those of all.
    pub fn close(self) -> (D, P)
        ensures driver { result.0 ≡ self.driver }
        ensures port { result.1 ≡ self.port }
        ensures counts { IsWhole (P.tells result.1) → HasFinished (P.tells self.first)
            (P.tells result.1) (done_by (seen D.tells P.tells self)) }
        ensures all { IsWhole (P.tells result.1) → directive_at (seen D.tells P.tells self) ≡ None
            → HasFinished (P.tells self.first) (P.tells result.1) self.part.directives }
    {
        let Machine { course, first: _ } = self;
        course.close()
    }
}
