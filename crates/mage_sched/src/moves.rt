ghost use Rattle.std.specs.Prelude.{◌≡◌, ◌≤◌, ◌<◌, ◌++◌, ◌∷◌, [], ℕ, length, nat_eq, set, IfOk, IfSome, OnOk};
ghost use Rattle.std.specs.List.{position};
ghost use Rattle.mage_sched.specs.Slots.{is_idle, reads_page, writes_page, lowest, says, without, finish_out, finish_write, make_room, finish_in, read_issued, write_issued, idle_buffer};
ghost use Rattle.mage_sched.specs.Views.{buffer_of};

use crate::slot::Slot;
use crate::slots::Slots;
use mage_base::Memory;
use mage_instr::Directive;
use std::alloc::Global;

// The lowest idle slot.
fn first_idle(table: &[Slot]) -> Option<usize>
    ensures { result ≡ position is_idle table.now }
{
    table.iter().position(|slot| matches!(slot, Slot::Idle))
}

// The slot that reads a page.
fn first_reading(table: &[Slot], page: u32) -> Option<usize>
    ensures { result ≡ position (reads_page page) table.now }
{
    table.iter().position(|slot| *slot == Slot::Reads(page))
}

// The slot that writes a page.
fn first_writing(table: &[Slot], page: u32) -> Option<usize>
    ensures { result ≡ position (writes_page page) table.now }
{
    table.iter().position(|slot| *slot == Slot::Writes(page))
}

// A slot doesn't write any more.
fn forget(writes: &mut Vec<u16>, slot: u16)
    ensures { writes.new.items ≡ without slot writes.old.items }
{
    if let Some(k) = place_of(writes.as_slice(), slot) {
        writes.remove(k);
    }
}

// Where a slot stands among some.
fn place_of(slots: &[u16], slot: u16) -> Option<usize>
    ensures place { result ≡ position (nat_eq slot) slots.now }
    ensures within { IfSome result (λ k. k < length slots.now) }
{
    slots.iter().position(|other| slot == *other)
}

impl Slots {
    // So many slots, which are idle.
    pub(crate) fn new(alloc: Global, buffer: u16) -> Result<Slots, Memory>
        ensures list { IfOk result (λ slots. slots.list.items ≡ []) }
        ensures buffer { IfOk result (λ slots. buffer_of slots ≡ idle_buffer buffer) }
    {
        Ok(Slots {
            list: Vec::new(alloc),
            table: vec![in alloc; Slot::Idle; usize::from(buffer)]?,
            writes: Vec::new(alloc),
        })
    }

    // A slot does this from now on.
    fn put(&mut self, slot: u16, state: Slot)
        ensures table { self.new.table.items ≡ set self.old.table.items slot state }
        ensures list { self.new.list ≡ self.old.list }
        ensures writes { self.new.writes ≡ self.old.writes }
    {
        let slot = usize::from(slot);
        if slot < self.table.len() {
            self.table[slot] = state;
        }
    }

    // The write in a slot is finished.
    fn finish_out(&mut self, slot: u16) -> Result<(), Memory>
        ensures list { OnOk result (self.new.list.items ≡ self.old.list.items
            ++ (finish_out slot (buffer_of self.old)).directives) }
        ensures buffer { OnOk result (buffer_of self.new
            ≡ (finish_out slot (buffer_of self.old)).buffer) }
        ensures count { length self.new.table.items ≡ length self.old.table.items }
    {
        self.list.push(Directive::FinishOut { slot })?;
        self.put(slot, Slot::Idle);
        forget(&mut self.writes, slot);
        Ok(())
    }

    // The write of a page is finished, where one is in flight.
    fn finish_write(&mut self, page: u32) -> Result<(), Memory>
        requires { length self.old.table.items ≤ 65536 }
        ensures list { OnOk result (self.new.list.items ≡ self.old.list.items
            ++ (finish_write page (buffer_of self.old)).directives) }
        ensures buffer { OnOk result (buffer_of self.new
            ≡ (finish_write page (buffer_of self.old)).buffer) }
        ensures count { length self.new.table.items ≡ length self.old.table.items }
    {
        if let Some(slot) = first_writing(self.table.as_slice(), page) {
            self.finish_out(slot as u16)?;
        }
        Ok(())
    }

    // Some slot is idle: where none was, the write that was issued first is finished.
    fn make_room(&mut self) -> Result<(), Memory>
        ensures list { OnOk result (self.new.list.items ≡ self.old.list.items
            ++ (make_room (buffer_of self.old)).directives) }
        ensures buffer { OnOk result (buffer_of self.new
            ≡ (make_room (buffer_of self.old)).buffer) }
        ensures count { length self.new.table.items ≡ length self.old.table.items }
    {
        if first_idle(self.table.as_slice()).is_some() {
            return Ok(());
        }
        match self.writes.first().copied() {
            Some(slot) => self.finish_out(slot),
            None => Ok(()),
        }
    }

    // The lowest idle slot, or 0 where there is none.
    fn lowest_idle(&self) -> u16
        requires { length self.now.table.items ≤ 65536 }
        ensures { result ≡ lowest is_idle (buffer_of self.now) }
    {
        first_idle(self.table.as_slice()).unwrap_or(0) as u16
    }

    // The read of a page is issued: behind the write of the page, and behind a write where no slot is idle.
    pub(crate) fn issue_in(&mut self, page: u32) -> Result<(), Memory>
        requires { length self.old.table.items ≤ 65536 }
        ensures list { OnOk result (self.new.list.items ≡ self.old.list.items
            ++ (read_issued page (buffer_of self.old)).directives) }
        ensures buffer { OnOk result (buffer_of self.new
            ≡ (read_issued page (buffer_of self.old)).buffer) }
        ensures count { length self.new.table.items ≡ length self.old.table.items }
    {
        self.finish_write(page)?;
        self.make_room()?;
        let slot = self.lowest_idle();
        self.list.push(Directive::IssueIn { slot, page })?;
        self.put(slot, Slot::Reads(page));
        Ok(())
    }

    // The write of the page that a frame has is issued, behind a write where no slot is idle.
    pub(crate) fn issue_out(&mut self, frame: u16, page: u32) -> Result<(), Memory>
        requires { length self.old.table.items ≤ 65536 }
        ensures list { OnOk result (self.new.list.items ≡ self.old.list.items
            ++ (write_issued frame page (buffer_of self.old)).directives) }
        ensures buffer { OnOk result (buffer_of self.new
            ≡ (write_issued frame page (buffer_of self.old)).buffer) }
        ensures count { length self.new.table.items ≡ length self.old.table.items }
    {
        self.make_room()?;
        let slot = self.lowest_idle();
        self.list.push(Directive::IssueOut { slot, frame, page })?;
        self.writes.push(slot)?;
        self.put(slot, Slot::Writes(page));
        Ok(())
    }

    // The read of a page is finished, into a frame.
    pub(crate) fn finish_in(&mut self, frame: u16, page: u32) -> Result<(), Memory>
        requires { length self.old.table.items ≤ 65536 }
        ensures list { OnOk result (self.new.list.items ≡ self.old.list.items
            ++ (finish_in frame page (buffer_of self.old)).directives) }
        ensures buffer { OnOk result (buffer_of self.new
            ≡ (finish_in frame page (buffer_of self.old)).buffer) }
        ensures count { length self.new.table.items ≡ length self.old.table.items }
    {
        let slot = first_reading(self.table.as_slice(), page).unwrap_or(0) as u16;
        self.list.push(Directive::FinishIn { slot, frame })?;
        self.put(slot, Slot::Idle);
        Ok(())
    }

    // A directive that no slot takes part in.
    pub(crate) fn say(&mut self, one: Directive) -> Result<(), Memory>
        ensures list { OnOk result (self.new.list.items ≡ self.old.list.items
            ++ (says one (buffer_of self.old)).directives) }
        ensures buffer { OnOk result (buffer_of self.new ≡ (says one (buffer_of self.old)).buffer) }
        ensures count { length self.new.table.items ≡ length self.old.table.items }
    {
        self.list.push(one)?;
        Ok(())
    }
}
