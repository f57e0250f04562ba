// Directives that touch frames and links alone, and the end.
ghost use Rattle.std.specs.Prelude.{◌≡◌, ◌≢◌, ◌<◌, ◌==◌, ◌+◌, if◌then◌else◌, None, Ok, IsTrue};
ghost use Rattle.mage_circuit.specs.Results.{is_made};
ghost use Rattle.mage_instr.specs.declared.directive.Directive.TheVariants as entry;
ghost use Rattle.mage_instr.specs.declared.op.Op.TheVariants as op;
ghost use Rattle.mage_link.specs.Links.{LinkTold};
ghost use Rattle.mage_engine.specs.declared.turn.Turn.TheVariants as turn;
ghost use Rattle.mage_engine.specs.Seen.{course_seen, directive_at, IsEnded};
ghost use Rattle.mage_engine.specs.Ready.{Connects, IsAt};
ghost use Rattle.mage_engine.specs.Steps.{Steps};

use crate::course::Course;
use crate::{Kind, Turn, Why};
use mage_bank::{clear, compute, receive, send};
use mage_driver::Driver;
use mage_instr::{Job, MachineFault, Op};
use mage_link::{Full, LinkPort, Wire16};
use mage_port::SwapPort;

impl<D: Driver, P: SwapPort> Course<D, P> {
    // A frame is filled with zeros.
    pub(crate) fn fresh(&mut self, frame: u16, _page: u32) -> Turn
        requires { IsAt (course_seen D.tells P.tells self.old) (entry.Fresh frame _page) }
        ensures { (link : LinkTold) → Steps D.rules (course_seen D.tells P.tells self.old)
            (course_seen D.tells P.tells self.new) link link (Ok result) }
    {
        clear(self.room.frames.as_mut_slice(), frame);
        self.place += 1;
        Turn::Moved(Kind::Do)
    }

    // A step of an instruction.
    pub(crate) fn instruct<L: LinkPort>(
        &mut self,
        job: Job,
        link: &mut L,
    ) -> Result<Turn, MachineFault>
        requires links { Connects (L.tells link.old) self.old.part }
        requires here { IsAt (course_seen D.tells P.tells self.old) (entry.Do job) }
        ensures { Steps D.rules (course_seen D.tells P.tells self.old) (course_seen D.tells P.tells self.new)
            (L.tells link.old) (L.tells link.new) result }
    {
        match job.op {
            Op::Send => Ok(self.push(job, link)),
            Op::Recv => Ok(self.pop(job, link)),
            _ => self.compute(job),
        }
    }

    // The driver makes the circuit of an instruction.
    fn compute(&mut self, job: Job) -> Result<Turn, MachineFault>
        requires here { IsAt (course_seen D.tells P.tells self.old) (entry.Do job) }
        requires made { IsTrue (is_made job.op) }
        ensures { (link : LinkTold) → Steps D.rules (course_seen D.tells P.tells self.old)
            (course_seen D.tells P.tells self.new) link link result }
    {
        let room = &mut self.room;
        match compute(
            &mut self.driver,
            &job,
            room.frames.as_mut_slice(),
            &mut room.scratch,
        ) {
            Ok(()) => {
                self.place += 1;
                Ok(Turn::Moved(Kind::Do))
            }
            Err(fault) => {
                self.fault = Some(MachineFault::Driver(fault));
                Err(MachineFault::Driver(fault))
            }
        }
    }

    // Sends the next wire of a value.
    fn push<L: LinkPort>(&mut self, job: Job, link: &mut L) -> Turn
        requires links { Connects (L.tells link.old) self.old.part }
        requires here { IsAt (course_seen D.tells P.tells self.old) (entry.Do job) }
        requires sends { job.op ≡ op.Send }
        ensures { Steps D.rules (course_seen D.tells P.tells self.old) (course_seen D.tells P.tells self.new)
            (L.tells link.old) (L.tells link.new) (Ok result) }
    {
        let bytes = send(
            &self.driver,
            self.room.frames.as_slice(),
            job.args[0],
            self.wire,
        );
        let to = job.imm as u16;
        match link.try_send(self.part.worker(), to, Wire16 { bytes }) {
            Ok(()) => {
                (self.place, self.wire) = past_wire(self.place, self.wire, job.width);
                Turn::Moved(Kind::Push)
            }
            Err(Full) => Turn::Blocked(Why::Full { to }),
        }
    }

    // Receives the next wire of a value.
    fn pop<L: LinkPort>(&mut self, job: Job, link: &mut L) -> Turn
        requires links { Connects (L.tells link.old) self.old.part }
        requires here { IsAt (course_seen D.tells P.tells self.old) (entry.Do job) }
        requires receives { job.op ≡ op.Recv }
        ensures { Steps D.rules (course_seen D.tells P.tells self.old) (course_seen D.tells P.tells self.new)
            (L.tells link.old) (L.tells link.new) (Ok result) }
    {
        let me = self.part.worker();
        let from = job.imm as u16;
        match link.try_recv(me, from) {
            Some(wire) => {
                receive(
                    &self.driver,
                    &wire.bytes,
                    self.room.frames.as_mut_slice(),
                    job.out,
                    self.wire,
                );
                (self.place, self.wire) = past_wire(self.place, self.wire, job.width);
                Turn::Moved(Kind::Pop)
            }
            None => Turn::Blocked(Why::Empty { from }),
        }
    }

    // Past the last directive the driver is finished, once.
    pub(crate) fn end(&mut self) -> Result<Turn, MachineFault>
        requires sound { self.old.fault ≡ None }
        requires past { directive_at (course_seen D.tells P.tells self.old) ≡ None }
        ensures step { (link : LinkTold) → Steps D.rules (course_seen D.tells P.tells self.old)
            (course_seen D.tells P.tells self.new) link link result }
        ensures ended { IsEnded (course_seen D.tells P.tells self.old) → result ≡ Ok turn.Ended }
    {
        if self.finished {
            return Ok(Turn::Ended);
        }
        match self.driver.finish() {
            Ok(()) => {
                self.finished = true;
                Ok(Turn::Moved(Kind::Do))
            }
            Err(fault) => {
                self.fault = Some(MachineFault::Driver(fault));
                Err(MachineFault::Driver(fault))
            }
        }
    }
}

// Where a machine stands after one wire more of a value of this width: with the last one the directive is done.
fn past_wire(place: u32, wire: u8, width: u8) -> (u32, u8)
    requires place { place + 1 < 4294967296 }
    requires wire { wire < width }
    ensures place { result.0 ≡ (if wire + 1 == width then place + 1 else place) }
    ensures wire { result.1 ≡ (if wire + 1 == width then 0 else wire + 1) }
{
    if wire + 1 == width {
        (place + 1, 0)
    } else {
        (place, wire + 1)
    }
}
