// A walk through the directives of a worker.
ghost use Rattle.std.specs.Prelude.{◌≡◌, ◌<◌, IfOk, IsSome, true, length, map, replicate, slice_get, unwrap_or, option_map};
ghost use Rattle.std.specs.Ordering.{nat_cmp};
ghost use Rattle.std.specs.BTreeMap.{get};
ghost use Rattle.std.specs.List.{list_any, list_all};
ghost use Rattle.mage_carry.specs.State.{nothing, Idle, is_idle, names, has, may_name, may_issue};
ghost use Rattle.mage_carry.specs.Steps.{page_read, fresh, issue_in, finish_in, issue_out, finish_out};
ghost use Rattle.mage_carry.specs.Carrying.{start};
ghost use Rattle.mage_carry.specs.Views.{content_of, slot_of, state_of, Goes};

use crate::held::Held;
use crate::transfer::Transfer;
use mage_base::Memory;
use std::alloc::Global;
use std::collections::BTreeMap;

/// What stands where.
#[derive(Drop)]
pub(crate) struct Walk {
    pub frames: Vec<Held>,
    pub slots: Vec<Transfer>,
    /// What each page of the store got by the last write of it that finished.
    pub pages: BTreeMap<u32, Held>,
    /// The index of the instruction that is done next.
    pub next: u32,
}

// Whether a slot is there and idle.
fn is_idle_at(slots: &[Transfer], slot: u16) -> bool
    ensures value { result ≡ has is_idle (slice_get (map slot_of slots.now) slot) }
    ensures within { result ≡ true → slot < length slots.now }
{
    match slots.get(usize::from(slot)) {
        Some(Transfer::Idle) => true,
        _ => false,
    }
}

// Whether a slot reads or writes the page.
fn names(transfer: &Transfer, page: u32) -> bool
    ensures { result ≡ names page (slot_of transfer.now) }
{
    match transfer {
        Transfer::Idle => false,
        Transfer::Read { page: other } => page == *other,
        Transfer::Write { page: other, .. } => page == *other,
    }
}

// Whether some slot reads or writes the page.
fn is_named(slots: &[Transfer], page: u32) -> bool
    ensures { result ≡ list_any (λ slot. names page (slot_of slot)) slots.now }
{
    slots.iter().any(|slot| names(slot, page))
}

// Whether a page is there to be read or written: the store has so many pages, and no slot names it.
fn may_name(slots: &[Transfer], store: u32, page: u32) -> bool
    ensures { result ≡ may_name store page (map slot_of slots.now) }
{
    page < store && !is_named(slots, page)
}

// Whether a slot may begin to read or write a page of the store, which has so many.
fn may_issue(slots: &[Transfer], store: u32, slot: u16, page: u32) -> bool
    ensures value { result ≡ may_issue store slot page (map slot_of slots.now) }
    ensures within { result ≡ true → slot < length slots.now }
{
    is_idle_at(slots, slot) && may_name(slots, store, page)
}

// The page that a slot reads.
fn page_read(slots: &[Transfer], slot: u16) -> Option<u32>
    ensures value { result ≡ page_read slot (map slot_of slots.now) }
    ensures within { IsSome result → slot < length slots.now }
{
    match slots.get(usize::from(slot)) {
        Some(Transfer::Read { page }) => Some(*page),
        _ => None,
    }
}

// Whether a slot is idle.
fn is_idle(transfer: &Transfer) -> bool
    ensures { result ≡ is_idle (slot_of transfer.now) }
{
    match transfer {
        Transfer::Idle => true,
        _ => false,
    }
}

// Whether each slot is idle.
pub(crate) fn are_idle(slots: &[Transfer]) -> bool
    ensures { result ≡ list_all (λ slot. is_idle (slot_of slot)) slots.now }
{
    slots.iter().all(|slot| is_idle(slot))
}

// Frames in which nothing stands.
fn empty_frames(alloc: Global, count: u32) -> Result<Vec<Held>, Memory>
    ensures { IfOk result (λ frames. map content_of frames.items ≡ replicate count nothing) }
{
    let mut frames = Vec::new(alloc);
    for _frame in 0..count {
        frames.push(Held::none(alloc))?;
    }
    Ok(frames)
}

// Slots that are idle.
fn idle_slots(alloc: Global, count: u16) -> Result<Vec<Transfer>, Memory>
    ensures { IfOk result (λ slots. map slot_of slots.items ≡ replicate count Idle) }
{
    let mut slots = Vec::new(alloc);
    for _slot in 0..count {
        slots.push(Transfer::Idle)?;
    }
    Ok(slots)
}

// What a page got, or nothing where no write of it has finished.
fn page_copy(alloc: Global, pages: &BTreeMap<u32, Held>, page: u32) -> Result<Held, Memory>
    ensures { IfOk result (λ copy. content_of copy
        ≡ unwrap_or (option_map content_of (get nat_cmp pages.now page)) nothing) }
{
    match pages.get(&page) {
        Some(held) => held.copy(),
        None => Ok(Held::none(alloc)),
    }
}

impl Walk {
    // At first nothing stands anywhere, and each slot is idle.
    pub(crate) fn start(alloc: Global, frames: u32, slots: u16) -> Result<Walk, Memory>
        ensures { IfOk result (λ walk. state_of walk ≡ start frames slots) }
    {
        Ok(Walk {
            frames: empty_frames(alloc, frames)?,
            slots: idle_slots(alloc, slots)?,
            pages: BTreeMap::new(alloc),
            next: 0,
        })
    }

    pub(crate) fn fresh(&mut self, alloc: Global, frame: u16) -> bool
        ensures { Goes result (state_of self.new) (fresh frame (state_of self.old)) }
    {
        if usize::from(frame) >= self.frames.len() {
            return false;
        }
        self.frames[usize::from(frame)] = Held::none(alloc);
        true
    }

    pub(crate) fn issue_in(&mut self, store: u32, slot: u16, page: u32) -> bool
        ensures { Goes result (state_of self.new) (issue_in store slot page (state_of self.old)) }
    {
        if !may_issue(self.slots.as_slice(), store, slot, page) || !self.pages.contains_key(&page) {
            return false;
        }
        self.slots[usize::from(slot)] = Transfer::Read { page };
        true
    }

    pub(crate) fn finish_in(&mut self, alloc: Global, slot: u16, frame: u16) -> Result<bool, Memory>
        ensures { IfOk result (λ goes. Goes goes (state_of self.new)
            (finish_in slot frame (state_of self.old))) }
    {
        let Some(page) = page_read(self.slots.as_slice(), slot) else {
            return Ok(false);
        };
        if usize::from(frame) >= self.frames.len() {
            return Ok(false);
        }
        let held = page_copy(alloc, &self.pages, page)?;
        self.frames[usize::from(frame)] = held;
        self.slots[usize::from(slot)] = Transfer::Idle;
        Ok(true)
    }

    pub(crate) fn issue_out(
        &mut self,
        store: u32,
        slot: u16,
        frame: u16,
        page: u32,
    ) -> Result<bool, Memory>
        ensures { IfOk result (λ goes. Goes goes (state_of self.new)
            (issue_out store slot frame page (state_of self.old))) }
    {
        let Some(held) = self.frames.get(usize::from(frame)) else {
            return Ok(false);
        };
        if !may_issue(self.slots.as_slice(), store, slot, page) {
            return Ok(false);
        }
        let held = held.copy()?;
        self.slots[usize::from(slot)] = Transfer::Write { page, held };
        Ok(true)
    }

    pub(crate) fn finish_out(&mut self, slot: u16) -> Result<bool, Memory>
        ensures { IfOk result (λ goes. Goes goes (state_of self.new)
            (finish_out slot (state_of self.old))) }
    {
        let Some(transfer) = self.slots.get_mut(usize::from(slot)) else {
            return Ok(false);
        };
        match std::mem::replace(transfer, Transfer::Idle) {
            Transfer::Write { page, held } => {
                self.pages.insert(page, held)?;
                Ok(true)
            }
            Transfer::Idle => Ok(false),
            Transfer::Read { .. } => Ok(false),
        }
    }
}
