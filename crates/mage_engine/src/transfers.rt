// Directives that move pages.
ghost use Rattle.std.specs.Prelude.{Ok};
ghost use Rattle.mage_instr.specs.declared.directive.Directive.TheVariants as entry;
ghost use Rattle.mage_link.specs.Links.{LinkTold};
ghost use Rattle.mage_engine.specs.Seen.{course_seen};
ghost use Rattle.mage_engine.specs.Ready.{IsAt};
ghost use Rattle.mage_engine.specs.Steps.{Steps};

use crate::course::Course;
use crate::frames::{copy, give, take};
use crate::{Kind, Turn, Why};
use mage_driver::Driver;
use mage_instr::MachineFault;
use mage_port::{PortWait, SwapPort};

impl<D: Driver, P: SwapPort> Course<D, P> {
    // A slot begins to read a page.
    pub(crate) fn issue_in(&mut self, slot: u16, page: u32) -> Turn
        requires { IsAt (course_seen D.tells P.tells self.old) (entry.IssueIn slot page) }
        ensures { (link : LinkTold) → Steps D.rules (course_seen D.tells P.tells self.old)
            (course_seen D.tells P.tells self.new) link link (Ok result) }
    {
        self.port.ask_read(slot, page);
        self.place += 1;
        Turn::Moved(Kind::Ask)
    }

    // A frame takes what a slot read.
    pub(crate) fn finish_in(&mut self, slot: u16, frame: u16) -> Result<Turn, MachineFault>
        requires { IsAt (course_seen D.tells P.tells self.old) (entry.FinishIn slot frame) }
        ensures { (link : LinkTold) → Steps D.rules (course_seen D.tells P.tells self.old)
            (course_seen D.tells P.tells self.new) link link result }
    {
        match take(&mut self.port, slot, self.room.frames.as_mut_slice(), frame) {
            Ok(_) => {
                self.place += 1;
                Ok(Turn::Moved(Kind::Finish))
            }
            Err(PortWait::Pending) => Ok(Turn::Blocked(Why::Slot { slot })),
            Err(PortWait::Failed) => {
                self.fault = Some(MachineFault::Store);
                Err(MachineFault::Store)
            }
            Err(PortWait::Damaged(damage)) => {
                self.fault = Some(MachineFault::Damaged(damage));
                Err(MachineFault::Damaged(damage))
            }
        }
    }

    // A slot begins to write what a frame holds. A frame that is left is handed over, and else copied.
    pub(crate) fn issue_out(&mut self, slot: u16, frame: u16, page: u32) -> Turn
        requires { IsAt (course_seen D.tells P.tells self.old) (entry.IssueOut slot frame page) }
        ensures { (link : LinkTold) → Steps D.rules (course_seen D.tells P.tells self.old)
            (course_seen D.tells P.tells self.new) link link (Ok result) }
    {
        if self.part.leaves(self.place) {
            give(
                &mut self.port,
                slot,
                page,
                self.room.frames.as_mut_slice(),
                frame,
            );
            self.place += 1;
            return Turn::Moved(Kind::Ask);
        }
        copy(
            &mut self.port,
            slot,
            page,
            self.room.frames.as_slice(),
            frame,
        );
        self.place += 1;
        Turn::Moved(Kind::Ask)
    }

    // A slot has written its page.
    pub(crate) fn finish_out(&mut self, slot: u16) -> Result<Turn, MachineFault>
        requires { IsAt (course_seen D.tells P.tells self.old) (entry.FinishOut slot) }
        ensures { (link : LinkTold) → Steps D.rules (course_seen D.tells P.tells self.old)
            (course_seen D.tells P.tells self.new) link link result }
    {
        match self.port.try_finish(slot, self.room.spare.as_mut_slice()) {
            Ok(_) => {
                self.place += 1;
                Ok(Turn::Moved(Kind::Finish))
            }
            Err(PortWait::Pending) => Ok(Turn::Blocked(Why::Slot { slot })),
            Err(PortWait::Failed) => {
                self.fault = Some(MachineFault::Store);
                Err(MachineFault::Store)
            }
            Err(PortWait::Damaged(damage)) => {
                self.fault = Some(MachineFault::Damaged(damage));
                Err(MachineFault::Damaged(damage))
            }
        }
    }
}
