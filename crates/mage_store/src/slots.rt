// The slots of a serial port.
ghost use Rattle.std.specs.Prelude.{◌≡◌, ◌<◌, ℕ, [], length, map, replicate, set, vec_len, IfOk, IsTrue, false};
ghost use Rattle.std.specs.List.{All};
ghost use Rattle.mage_port.specs.Port.{Idle, AskedRead, AskedWrite, HasFailed, is_asked_write};
ghost use Rattle.mage_store.specs.Slots.{state_of, state_with, idle_slots, state_at, with_state_at, bytes_to_write};

use crate::slot::{Slot, Task};
use mage_base::Memory;
use std::alloc::Global;
use std::marker::Model;

/// Slots with a buffer each, all of the length of a page.
#[derive(Drop)]
pub(crate) struct Slots {
    slots: Vec<Slot>,
    page_bytes: u32,
}

impl Model for Slots {
    ghost use Rattle.std.specs.Prelude.{◌≡◌, ◌<◌, ◌^◌, map, length};
    ghost use Rattle.std.specs.List.{All};
    ghost use Rattle.mage_store.specs.Slots.{SlotsState, state_of};

    ghost Value = { SlotsState };

    ghost view = { λ held. record {
      states = map state_of held.slots.items;
      page_bytes = held.page_bytes;
    } };

    ghost invariant = { λ held. record {
      few : length held.slots.items < 2 ^ 16;
      whole : All (λ slot. length slot.buffer.items ≡ held.page_bytes) held.slots.items;
    } };
}

impl Slots {
    /// So many idle slots. All of their room is taken here.
    pub(crate) fn make(alloc: Global, count: u16, page_bytes: u32) -> Result<Slots, Memory>
        ensures { IfOk result (λ slots. slots ≡ idle_slots count page_bytes) }
    {
        Ok(Slots {
            slots: empty_slots(alloc, count, page_bytes as usize)?,
            page_bytes,
        })
    }

    pub(crate) fn count(&self) -> u16
        ensures { result ≡ length self.now.states }
    {
        self.slots.len() as u16
    }

    pub(crate) fn task(&self, slot: u16) -> Task
        requires { slot < length self.now.states }
        ensures { state_at self.now slot
            ≡ state_with result (bytes_to_write (state_at self.now slot)) }
    {
        self.slots[slot as usize].task
    }

    /// What a slot is to write.
    pub(crate) fn buffer(&self, slot: u16) -> &[u8]
        requires { slot < length self.now.states }
        ensures whole { length result.now ≡ self.now.page_bytes }
        ensures bytes { IsTrue (is_asked_write (state_at self.now slot))
            → result.now ≡ bytes_to_write (state_at self.now slot) }
    {
        let slot = &self.slots[slot as usize];
        slot.buffer.as_slice()
    }

    pub(crate) fn rest(&mut self, slot: u16)
        requires { slot < length self.old.states }
        ensures { self.new ≡ with_state_at self.old slot Idle }
    {
        put_task(&mut self.slots, slot as usize, Task::Idle);
    }

    pub(crate) fn ask_read(&mut self, slot: u16, page: u32)
        requires { slot < length self.old.states }
        ensures { self.new ≡ with_state_at self.old slot (AskedRead page) }
    {
        put_task(&mut self.slots, slot as usize, Task::Read { page });
    }

    pub(crate) fn fail(&mut self, slot: u16, page: u32)
        requires { slot < length self.old.states }
        ensures { self.new ≡ with_state_at self.old slot (HasFailed page) }
    {
        put_task(&mut self.slots, slot as usize, Task::Failed { page });
    }

    pub(crate) fn ask_write(&mut self, slot: u16, page: u32, from: &[u8])
        requires within { slot < length self.old.states }
        requires whole { length from.now ≡ self.old.page_bytes }
        ensures { self.new ≡ with_state_at self.old slot (AskedWrite page from.now) }
    {
        put_copy(&mut self.slots, slot as usize, page, from);
    }

    /// Exchanges the buffer of the slot for this one.
    pub(crate) fn give_write(&mut self, slot: u16, page: u32, from: &mut Vec<u8>)
        requires within { slot < length self.old.states }
        requires whole { length from.old.items ≡ self.old.page_bytes }
        ensures asked { self.new ≡ with_state_at self.old slot (AskedWrite page from.old.items) }
        ensures whole { length from.new.items ≡ self.old.page_bytes }
    {
        put_exchanged(&mut self.slots, slot as usize, page, from);
    }
}

// Empties of a page's length.
fn empty_slots(alloc: Global, count: u16, page_bytes: usize) -> Result<Vec<Slot>, Memory>
    ensures states { IfOk result (λ slots. map state_of slots.items ≡ replicate count Idle) }
    ensures count { IfOk result (λ slots. vec_len slots ≡ count) }
    ensures lengths { IfOk result (λ slots.
        All (λ slot. length slot.buffer.items ≡ page_bytes) slots.items) }
{
    let mut slots = Vec::with_capacity(alloc, count as usize)?;
    for _ in 0..count {
        let mut buffer = Vec::new(alloc);
        buffer.resize(page_bytes, 0)?;
        slots.push(Slot {
            task: Task::Idle,
            buffer,
        })?;
    }
    Ok(slots)
}

// Gives a slot a task that needs none of its bytes.
fn put_task(slots: &mut Vec<Slot>, slot: usize, task: Task)
    requires within { slot < vec_len slots.old }
    requires no_write { is_asked_write (state_with task []) ≡ false }
    ensures states { map state_of slots.new.items
        ≡ set (map state_of slots.old.items) slot (state_with task []) }
    ensures count { length slots.new.items ≡ length slots.old.items }
    ensures lengths { (page_bytes : ℕ)
        → All (λ held. length held.buffer.items ≡ page_bytes) slots.old.items
        → All (λ held. length held.buffer.items ≡ page_bytes) slots.new.items }
{
    slots[slot].task = task;
}

// Gives a slot these bytes to write.
fn put_copy(slots: &mut Vec<Slot>, slot: usize, page: u32, from: &[u8])
    requires within { slot < vec_len slots.old }
    requires lengths { All (λ held. length held.buffer.items ≡ length from.now) slots.old.items }
    ensures states { map state_of slots.new.items
        ≡ set (map state_of slots.old.items) slot (AskedWrite page from.now) }
    ensures count { length slots.new.items ≡ length slots.old.items }
    ensures lengths { All (λ held. length held.buffer.items ≡ length from.now) slots.new.items }
{
    let held = &mut slots[slot];
    held.buffer.copy_from_slice(from);
    held.task = Task::Write { page };
}

// Gives a slot this buffer to write, and takes its own.
fn put_exchanged(slots: &mut Vec<Slot>, slot: usize, page: u32, from: &mut Vec<u8>)
    requires within { slot < vec_len slots.old }
    requires lengths { All (λ held. length held.buffer.items ≡ length from.old.items)
        slots.old.items }
    ensures states { map state_of slots.new.items
        ≡ set (map state_of slots.old.items) slot (AskedWrite page from.old.items) }
    ensures count { length slots.new.items ≡ length slots.old.items }
    ensures lengths { All (λ held. length held.buffer.items ≡ length from.old.items)
        slots.new.items }
    ensures whole { length from.new.items ≡ length from.old.items }
{
    let held = &mut slots[slot];
    std::mem::swap(&mut held.buffer, from);
    held.task = Task::Write { page };
}
