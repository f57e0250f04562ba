ghost use Rattle.std.specs.Prelude.{◌≡◌, ◌≤◌, ◌<◌, ◌++◌, ◌+◌, ◌↔◌, ℕ, length, IfOk, OnOk, Some, None, Err};
ghost use Rattle.mage_instr.specs.declared.instr.TheConstants.{NEVER};
ghost use Rattle.mage_instr.specs.declared.replaced.Tight.{Tight};
ghost use Rattle.mage_sched.specs.declared.fault.ScheduleError.TheVariants as errors;
ghost use Rattle.mage_sched.specs.Homes.{homed_of};
ghost use Rattle.mage_sched.specs.Rule.{IsReplaced};
ghost use Rattle.mage_sched.specs.Schedule.{jobs_of, schedule_of, buffer_tight, loaded, issued_ahead};
ghost use Rattle.mage_sched.specs.Scheduled.{IsSchedule, IsPlanned, AreBelow};
ghost use Rattle.mage_sched.specs.Slots.{all_done};
ghost use Rattle.mage_sched.specs.Views.{buffer_of, AreOrdered, AreBefore, AreFrom};

use crate::ScheduleError;
use crate::homes::homed;
use crate::read::Timed;
use crate::reads::issues_of;
use crate::slots::Slots;
use crate::tight::buffer_tight;
use mage_base::Memory;
use mage_instr::{Directive, Replaced};
use std::alloc::Global;

impl Slots {
    // A page is loaded into a frame: its read is finished, and issued here where it was not before.
    fn load(&mut self, read: Timed, frame: u16, page: u32) -> Result<(), Memory>
        requires { length self.old.table.items ≤ 65536 }
        ensures list { OnOk result (self.new.list.items ≡ self.old.list.items
            ++ (all_done (loaded read frame page) (buffer_of self.old)).directives) }
        ensures buffer { OnOk result (buffer_of self.new
            ≡ (all_done (loaded read frame page) (buffer_of self.old)).buffer) }
        ensures count { length self.new.table.items ≡ length self.old.table.items }
    {
        if read.issue >= read.due {
            self.issue_in(page)?;
        }
        self.finish_in(frame, page)
    }

    // The reads that are issued in the gap of an instruction and due later, where those before `next` were issued in a gap
    // before. The answer is how many reads are issued in this gap or one before.
    fn issue_ahead(&mut self, reads: &[Timed], next: usize, gap: u32) -> Result<usize, Memory>
        requires few { length self.old.table.items ≤ 65536 }
        requires within { next ≤ length reads.now }
        requires ordered { AreOrdered reads.now }
        requires before { AreBefore reads.now next gap }
        requires after { AreFrom reads.now next gap }
        ensures list { OnOk result (self.new.list.items ≡ self.old.list.items
            ++ (all_done (issued_ahead reads.now gap) (buffer_of self.old)).directives) }
        ensures buffer { OnOk result (buffer_of self.new
            ≡ (all_done (issued_ahead reads.now gap) (buffer_of self.old)).buffer) }
        ensures within { IfOk result (λ n. n ≤ length reads.now) }
        ensures before { IfOk result (λ n. AreBefore reads.now n (gap + 1)) }
        ensures after { IfOk result (λ n. AreFrom reads.now n (gap + 1)) }
        ensures count { length self.new.table.items ≡ length self.old.table.items }
    {
        for k in next..reads.len() {
            let read = reads[k];
            if read.issue > gap {
                return Ok(k);
            }
            if read.due > gap {
                self.issue_in(read.page)?;
            }
        }
        Ok(reads.len())
    }
}

// The directives of a list.
fn directives_of(
    alloc: Global,
    list: &[Replaced],
    buffer: u16,
    ahead: u32,
) -> Result<Vec<Directive>, Memory>
    requires { jobs_of list.now ≤ NEVER }
    ensures { IfOk result (λ directives. directives.items ≡ schedule_of buffer ahead list.now) }
{
    let reads = issues_of(alloc, list, buffer, ahead)?;
    let mut slots = Slots::new(alloc, buffer)?;
    let (mut gap, mut loads, mut next) = (0, 0, 0);
    for k in 0..list.len() {
        match list[k] {
            Replaced::Fresh { frame, page } => slots.say(Directive::Fresh { frame, page })?,
            Replaced::Save { frame, page } => slots.issue_out(frame, page)?,
            Replaced::Load { frame, page } => {
                slots.load(reads[loads], frame, page)?;
                loads += 1;
            }
            Replaced::Do(job) => {
                next = slots.issue_ahead(reads.as_slice(), next, gap)?;
                slots.say(Directive::Do(job))?;
                gap += 1;
            }
        }
    }
    Ok(slots.list)
}

// The directives of a list with their store pages, and how many of these there are.
fn plan_of(
    alloc: Global,
    list: &[Replaced],
    buffer: u16,
    ahead: u32,
) -> Result<(Vec<Directive>, u32), Memory>
    requires { jobs_of list.now ≤ NEVER }
    ensures list { IfOk result (λ plan. plan.0.items
        ≡ (homed_of (schedule_of buffer ahead list.now)).directives) }
    ensures count { IfOk result (λ plan. plan.1
        ≡ (homed_of (schedule_of buffer ahead list.now)).count) }
    ensures planned { IsReplaced list.now → buffer_tight buffer list.now ≡ None
        → IfOk result (λ plan. IsPlanned buffer ahead list.now plan.0.items plan.1) }
{
    let directives = directives_of(alloc, list, buffer, ahead)?;
    homed(alloc, directives.as_slice())
}

/// The directives of a list, as `schedule` makes them, in which transfers name the pages themselves and no store pages.
///
/// Where the buffer has no slot and a `Load` or `Save` stands, they aren't a schedule.
pub fn schedule_by_page(
    alloc: Global,
    list: &[Replaced],
    buffer: u16,
    ahead: u32,
) -> Result<Vec<Directive>, Memory>
    requires { jobs_of list.now ≤ NEVER }
    ensures list { IfOk result (λ directives.
        directives.items ≡ schedule_of buffer ahead list.now) }
    ensures right { IsReplaced list.now → buffer_tight buffer list.now ≡ None
        → IfOk result (λ directives. IsSchedule buffer ahead list.now directives.items) }
{
    directives_of(alloc, list, buffer, ahead)
}

/// The directives of a worker, from the list of the replacement rule, and how many pages its store has: each `Load` becomes
/// a read that is issued and then finished, and each `Save` a write, in the slots of a buffer.
///
/// What stands before instruction t and behind the one before it is the gap of t. A read is finished where its `Load`
/// stood, and issued in the first gap, but not before the read before it, that is no more than `ahead` instructions before
/// its own, where its page has left memory, and where the read that is `buffer - 1` reads before it is due. In that gap the
/// issue stands last, or directly before the finish where both are in one gap. A write is issued where its `Save` stood. It
/// is finished before a read of its page is issued, and the write that was issued first is finished where no slot is
/// idle. A transfer takes the lowest idle slot. Each page is kept in a page of the store, as `homed` says.
///
/// The list has at most as many instructions as a `u32` counts. Of one that the rule makes, for whatever victims, the
/// directives are a schedule, and each transfer names a store page below the number. `Tight` comes exactly where the buffer
/// has no slot and a `Load` or `Save` stands, and names the instruction that the first of them precedes; else `Memory` may
/// come.
pub fn schedule(
    alloc: Global,
    list: &[Replaced],
    buffer: u16,
    ahead: u32,
) -> Result<(Vec<Directive>, u32), ScheduleError>
    requires { jobs_of list.now ≤ NEVER }
    ensures list { IfOk result (λ plan. plan.0.items
        ≡ (homed_of (schedule_of buffer ahead list.now)).directives) }
    ensures count { IfOk result (λ plan. plan.1
        ≡ (homed_of (schedule_of buffer ahead list.now)).count) }
    ensures right { IsReplaced list.now
        → IfOk result (λ plan. IsSchedule buffer ahead list.now plan.0.items) }
    ensures below { IsReplaced list.now → IfOk result (λ plan. AreBelow plan.1 plan.0.items) }
    ensures tight { (tight : Tight) → (result ≡ Err (errors.Tight tight))
        ↔ (buffer_tight buffer list.now ≡ Some tight) }
{
    if let Some(tight) = buffer_tight(buffer, list) {
        return Err(ScheduleError::Tight(tight));
    }
    plan_of(alloc, list, buffer, ahead).map_err(|_| ScheduleError::Memory)
}

#[cfg(test)]
mod tests;
