// What a machine goes through, one directive after another.
ghost use Rattle.std.specs.Prelude.{◌≡◌, ◌<◌, slice_get, None, Ok, IfOk, IfErr};
ghost use Rattle.mage_driver.specs.declared.standing.Standing.TheVariants as standing;
ghost use Rattle.mage_engine.specs.declared.turn.Turn.TheVariants as turn;
ghost use Rattle.mage_engine.specs.Seen.{course_seen, directive_at, IsEnded};
ghost use Rattle.mage_engine.specs.Ready.{Serves, Connects, IsAt, opened, wires_of};
ghost use Rattle.mage_engine.specs.Steps.{Steps};

use crate::Turn;
use crate::room::{Room, room_for};
use mage_base::Memory;
use mage_circuit::Scratch;
use mage_driver::Driver;
use mage_instr::{Directive, MachineFault};
use mage_link::LinkPort;
use mage_port::SwapPort;
use mage_verify::Part;
use std::alloc::Global;
use std::marker::Model;

// How far a machine is in one worker's directives, with all that it owns.
#[derive(Drop)]
pub(crate) struct Course<D: Driver, P: SwapPort> {
    pub(crate) part: Part,
    pub(crate) driver: D,
    pub(crate) port: P,
    pub(crate) room: Room<D>,
    // How many directives are done, and how many wires of the one that comes next.
    pub(crate) place: u32,
    pub(crate) wire: u8,
    pub(crate) finished: bool,
    pub(crate) fault: Option<MachineFault>,
}

impl<D: Driver, P: SwapPort> Model for Course<D, P> {
    ghost use Rattle.std.specs.Prelude.{◌≡◌, length};
    ghost use Rattle.mage_bank.specs.Bank.{contents};
    ghost use Rattle.mage_engine.specs.Seen.{CourseState, course_seen};
    ghost use Rattle.mage_engine.specs.Ready.{Stands, page_bytes_of};

    ghost Value = { CourseState D P };

    ghost view = { λ machine. record {
      part = machine.part;
      driver = machine.driver;
      port = machine.port;
      place = machine.place;
      wire = machine.wire;
      frames = contents machine.room.frames.items;
      fault = machine.fault;
    } };

    ghost invariant = { λ machine. Stands D.rules.wire_bytes machine.finished machine.fault
        (course_seen D.tells P.tells (record {
          part = machine.part;
          driver = machine.driver;
          port = machine.port;
          place = machine.place;
          wire = machine.wire;
          frames = contents machine.room.frames.items;
          fault = machine.fault;
        })) × (length machine.room.spare.items ≡ page_bytes_of D.rules.wire_bytes machine.part) };
}

impl<D: Driver, P: SwapPort> Course<D, P> {
    // A course before the first directive of a part, with all of its memory.
    pub(crate) fn make(
        alloc: Global,
        part: Part,
        driver: D,
        port: P,
    ) -> Result<Course<D, P>, (Part, D, P, Memory)>
        requires running { (D.tells driver).standing ≡ standing.Running }
        requires port { Serves D.WIRE_BYTES (P.tells port) part }
        ensures opened { IfOk result (λ course. course_seen D.tells P.tells course
            ≡ opened D.rules part (D.tells driver) (P.tells port)) }
        ensures handed { IfOk result (λ course.
            (course.driver ≡ driver) × (course.port ≡ port)) }
        ensures back { IfErr result (λ back.
            (back.0 ≡ part) × (back.1 ≡ driver) × (back.2 ≡ port)) }
    {
        let _directives = part.directives();
        match room_for(alloc, part.limits(), &driver) {
            Ok(room) => Ok(Course {
                part,
                driver,
                port,
                room,
                place: 0,
                wire: 0,
                finished: false,
                fault: None,
            }),
            Err(memory) => Err((part, driver, port, memory)),
        }
    }

    // The fault that stopped it. Without one it isn't past the last wire of the directive at which it stands.
    pub(crate) fn fault(&self) -> Option<MachineFault>
        ensures fault { result ≡ self.now.fault }
        ensures wire { result ≡ None
            → self.now.wire < wires_of (directive_at (course_seen D.tells P.tells self.now)) }
        ensures ended { IsEnded (course_seen D.tells P.tells self.now) → result ≡ None }
    {
        self.fault
    }

    // Makes one step, where no fault stopped it.
    pub(crate) fn step<L: LinkPort>(&mut self, link: &mut L) -> Result<Turn, MachineFault>
        requires sound { self.old.fault ≡ None }
        requires links { Connects (L.tells link.old) self.old.part }
        ensures step { Steps D.rules (course_seen D.tells P.tells self.old)
            (course_seen D.tells P.tells self.new) (L.tells link.old) (L.tells link.new) result }
        ensures ended { IsEnded (course_seen D.tells P.tells self.old) → result ≡ Ok turn.Ended }
    {
        match next_of(self.part.directives(), self.place) {
            Some(directive) => self.go(directive, link),
            None => self.end(),
        }
    }

    // The same at a directive.
    fn go<L: LinkPort>(&mut self, directive: Directive, link: &mut L) -> Result<Turn, MachineFault>
        requires links { Connects (L.tells link.old) self.old.part }
        requires here { IsAt (course_seen D.tells P.tells self.old) directive }
        ensures { Steps D.rules (course_seen D.tells P.tells self.old) (course_seen D.tells P.tells self.new)
            (L.tells link.old) (L.tells link.new) result }
    {
        match directive {
            Directive::Fresh { frame, page } => Ok(self.fresh(frame, page)),
            Directive::IssueIn { slot, page } => Ok(self.issue_in(slot, page)),
            Directive::FinishIn { slot, frame } => self.finish_in(slot, frame),
            Directive::IssueOut { slot, frame, page } => Ok(self.issue_out(slot, frame, page)),
            Directive::FinishOut { slot } => self.finish_out(slot),
            Directive::Do(job) => self.instruct(job, link),
        }
    }

    // The driver and the port.
    pub(crate) fn close(self) -> (D, P)
        ensures driver { result.0 ≡ self.driver }
        ensures port { result.1 ≡ self.port }
    {
        let Course {
            part: _,
            driver,
            port,
            room: _,
            place: _,
            wire: _,
            finished: _,
            fault: _,
        } = self;
        (driver, port)
    }
}

// The directive with this index; none past the last one.
fn next_of(directives: &[Directive], place: u32) -> Option<Directive>
    ensures { result ≡ slice_get directives.now place }
{
    directives.get(place as usize).copied()
}
