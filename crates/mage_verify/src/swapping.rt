// What directives do to the tables, and ask of them.
ghost use Rattle.std.specs.Prelude.{◌≡◌, ◌<◌, length, true, IfOk, OnOk, replicate};
ghost use Rattle.std.specs.List.{list_any};
ghost use Rattle.mage_verify.specs.declared.slot.Slot.TheVariants as does;
ghost use Rattle.mage_verify.specs.Range.{is_in_range};
ghost use Rattle.mage_verify.specs.Faults.{slot_is_right, page_is_right};
ghost use Rattle.mage_verify.specs.State.{opening, after, is_in_flight, is_busy, is_moving};
ghost use Rattle.mage_verify.specs.Tables.{AreKept, state_in, IsFine, IsStarted, IsFinished};

use crate::Slot;
use crate::swaps::Swaps;
use mage_base::Memory;
use mage_instr::{Directive, Limits};
use std::alloc::Global;
use std::collections::HashSet;

impl Swaps {
    // Each slot of a buffer is idle, and no page is stored.
    pub(crate) fn new(alloc: Global, buffer: u16) -> Result<Swaps, Memory>
        ensures kept { IfOk result (λ swaps. AreKept buffer swaps) }
        ensures state { IfOk result (λ swaps. state_in swaps ≡ opening) }
    {
        let slots = idle_slots(alloc, usize::from(buffer))?;
        Ok(Swaps {
            slots,
            in_flight: HashSet::new(alloc),
            stored: HashSet::new(alloc),
        })
    }

    // Whether a slot is in flight.
    pub(crate) fn is_busy(&self) -> bool
        ensures { result ≡ is_busy (length self.now.slots.items) (state_in self.now) }
    {
        some_in_flight(self.slots.as_slice())
    }

    // Whether a slot in flight names a page.
    fn is_moving(&self, limits: Limits, page: u32) -> bool
        requires { AreKept limits.buffer self.now }
        ensures { result ≡ is_moving limits.buffer (state_in self.now) page }
    {
        self.in_flight.contains(&page)
    }

    // Whether the slot of a directive does what the directive asks for.
    pub(crate) fn slot_is_right(&self, limits: Limits, directive: Directive) -> bool
        requires kept { AreKept limits.buffer self.now }
        requires range { is_in_range limits directive ≡ true }
        ensures { result ≡ slot_is_right (state_in self.now) directive }
    {
        match directive {
            Directive::IssueIn { slot, .. } => self.slots[usize::from(slot)] == Slot::Idle,
            Directive::IssueOut { slot, .. } => self.slots[usize::from(slot)] == Slot::Idle,
            Directive::FinishIn { slot, .. } => {
                matches!(self.slots[usize::from(slot)], Slot::Reading(_))
            }
            Directive::FinishOut { slot } => {
                matches!(self.slots[usize::from(slot)], Slot::Writing(_))
            }
            Directive::Fresh { .. } | Directive::Do(_) => true,
        }
    }

    // Whether the page of a directive stands still, and is stored where it is to be read.
    pub(crate) fn page_is_right(&self, limits: Limits, directive: Directive) -> bool
        requires kept { AreKept limits.buffer self.now }
        ensures { result ≡ page_is_right limits.buffer (state_in self.now) directive }
    {
        match directive {
            Directive::IssueIn { page, .. } => {
                !self.is_moving(limits, page) && self.stored.contains(&page)
            }
            Directive::IssueOut { page, .. } => !self.is_moving(limits, page),
            _ => true,
        }
    }

    // A directive is done that has no fault.
    pub(crate) fn apply(&mut self, limits: Limits, directive: Directive) -> Result<(), Memory>
        requires kept { AreKept limits.buffer self.old }
        requires fine { IsFine limits (state_in self.old) directive }
        ensures kept { OnOk result (AreKept limits.buffer self.new) }
        ensures state { OnOk result (state_in self.new ≡ after (state_in self.old) directive) }
    {
        match directive {
            Directive::IssueIn { slot, page } => self.start(slot, page, Slot::Reading(page)),
            Directive::IssueOut { slot, page, .. } => self.start(slot, page, Slot::Writing(page)),
            Directive::FinishIn { slot, .. } => self.finish(slot),
            Directive::FinishOut { slot } => self.finish(slot),
            Directive::Fresh { .. } | Directive::Do(_) => Ok(()),
        }
    }

    // An idle slot begins to read or write a page that stands still.
    fn start(&mut self, slot: u16, page: u32, does: Slot) -> Result<(), Memory>
        requires { slot < length self.old.slots.items }
        ensures { OnOk result (IsStarted self.old self.new slot page does) }
    {
        self.in_flight.insert(page)?;
        self.slots[usize::from(slot)] = does;
        Ok(())
    }

    // A slot is idle from now on; the page that it wrote is stored.
    fn finish(&mut self, slot: u16) -> Result<(), Memory>
        requires { slot < length self.old.slots.items }
        ensures { OnOk result (IsFinished self.old self.new slot) }
    {
        match self.slots[usize::from(slot)] {
            Slot::Idle => {}
            Slot::Reading(page) => {
                self.in_flight.remove(&page);
            }
            Slot::Writing(page) => {
                self.in_flight.remove(&page);
                self.stored.insert(page)?;
            }
        }
        self.slots[usize::from(slot)] = Slot::Idle;
        Ok(())
    }
}

// So many idle slots.
fn idle_slots(alloc: Global, count: usize) -> Result<Vec<Slot>, Memory>
    ensures { IfOk result (λ slots. slots.items ≡ replicate count does.Idle) }
{
    Ok(vec![in alloc; Slot::Idle; count]?)
}

// Whether one of some slots is in flight.
fn some_in_flight(slots: &[Slot]) -> bool
    ensures { result ≡ list_any is_in_flight slots.now }
{
    slots.iter().any(|slot| is_in_flight(*slot))
}

// Whether a slot is in flight.
fn is_in_flight(slot: Slot) -> bool
    ensures { result ≡ is_in_flight slot }
{
    match slot {
        Slot::Idle => false,
        Slot::Reading(_) | Slot::Writing(_) => true,
    }
}
