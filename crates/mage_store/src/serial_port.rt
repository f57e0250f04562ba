// A port over one store.
ghost use Rattle.std.specs.Prelude.{◌≡◌, length, IfOk, IfErr, IsTrue};
ghost use Rattle.mage_port.specs.Port.{AskedRead, AskedWrite, IsAsked, IsAskedRead, Finishes, KeepsOn};
ghost use Rattle.mage_store.specs.SerialPort.{new_serial, port_told, CameFrom, IsNotUnderWay};
ghost use Rattle.mage_store.specs.Slots.{state_at, bytes_to_write};

use crate::slot::Task;
use crate::slots::Slots;
use mage_base::{Memory, Store};
use mage_history::PageHistory;
use mage_port::{PortWait, Ready, SwapPort};
use std::alloc::Global;
use std::marker::Model;
use std::snapshot::Snapshot;

/// A port over one store. A transfer is made when the port is asked whether it is done, so none is
/// ever under way.
#[derive(Drop)]
pub struct SerialPort<S: Store> {
    store: S,
    first: Snapshot<S>,
    slots: Slots,
    history: PageHistory,
}

impl<S: Store> Model for SerialPort<S> {
    ghost use Rattle.mage_store.specs.SerialPort.{SerialState, CameFrom};

    ghost Value = { SerialState S };

    ghost view = { λ port. record {
      store = port.store;
      first = port.first.value;
      slots = port.slots;
      made = port.history.transfers;
    } };

    ghost invariant = { λ port. CameFrom (S.tells port.first.value) (S.tells port.store) port.slots
        port.history.transfers };
}

impl<S: Store> SerialPort<S> {
    /// A port of `buffer` idle slots over this store, whose pages have this length. All of the room
    /// is taken here. With `Memory` the store comes back.
    pub fn make(
        alloc: Global,
        buffer: u16,
        page_bytes: u32,
        store: S,
    ) -> Result<SerialPort<S>, (S, Memory)>
        requires { page_bytes ≡ (S.tells store).page_bytes }
        ensures port { IfOk result (λ port. port ≡ new_serial store buffer page_bytes) }
        ensures back { IfErr result (λ back. back.0 ≡ store) }
    {
        match Slots::make(alloc, buffer, page_bytes) {
            Ok(slots) => Ok(SerialPort {
                first: Snapshot::of(&store),
                store,
                slots,
                history: PageHistory::new(),
            }),
            Err(memory) => Err((store, memory)),
        }
    }

    /// The store. Its count of faults rose since `make` just where some slot is failed, and its log
    /// grew by the transfers that were finished.
    pub fn close(self) -> S
        ensures store { result ≡ self.store }
        ensures came { CameFrom (S.tells self.first) (S.tells self.store) self.slots self.made }
    {
        let SerialPort {
            store,
            first: _,
            slots: _,
            history: _,
        } = self;
        store
    }

    // Reads the page that a slot was asked for.
    fn read(&mut self, slot: u16, page: u32, into: &mut [u8]) -> Result<Ready, PortWait>
        requires asked { state_at self.old.slots slot ≡ AskedRead page }
        requires whole { length into.old ≡ self.old.slots.page_bytes }
        ensures answer { Finishes (port_told S.tells self.old) (port_told S.tells self.new) slot
            into.old into.new result }
        ensures steady { IsTrue (S.tells self.old.store).steady
            → KeepsOn (port_told S.tells self.old) (AskedRead page) result }
        ensures answered { IsNotUnderWay result }
    {
        match self.store.read(page, into) {
            Ok(()) => {
                self.history.note_read(&page, into);
                self.slots.rest(slot);
                Ok(Ready::Read)
            }
            Err(_) => {
                self.slots.fail(slot, page);
                Err(PortWait::Failed)
            }
        }
    }

    // Writes the page that a slot was asked to write.
    fn write(&mut self, slot: u16, page: u32, into: &[u8]) -> Result<Ready, PortWait>
        requires { state_at self.old.slots slot
            ≡ AskedWrite page (bytes_to_write (state_at self.old.slots slot)) }
        ensures answer { Finishes (port_told S.tells self.old) (port_told S.tells self.new) slot
            into.now into.now result }
        ensures steady { IsTrue (S.tells self.old.store).steady
            → KeepsOn (port_told S.tells self.old) (state_at self.old.slots slot) result }
        ensures answered { IsNotUnderWay result }
    {
        let bytes = self.slots.buffer(slot);
        match self.store.write(page, bytes) {
            Ok(()) => {
                self.history.note_write(&page, bytes);
                self.slots.rest(slot);
                Ok(Ready::Wrote)
            }
            Err(_) => {
                self.slots.fail(slot, page);
                Err(PortWait::Failed)
            }
        }
    }
}

impl<S: Store> SwapPort for SerialPort<S> {
    ghost tells = { port_told S.tells };

    fn slots(&self) -> u16 {
        self.slots.count()
    }

    fn ask_read(&mut self, slot: u16, page: u32) {
        self.slots.ask_read(slot, page);
    }

    fn ask_write(&mut self, slot: u16, page: u32, from: &[u8]) {
        self.slots.ask_write(slot, page, from);
    }

    fn give_write(&mut self, slot: u16, page: u32, from: &mut Vec<u8>) {
        self.slots.give_write(slot, page, from);
    }

    /// A page is read straight into `into`.
    fn try_finish(&mut self, slot: u16, into: &mut [u8]) -> Result<Ready, PortWait>
        requires asked { IsAsked (port_told S.tells self.old) slot }
        requires whole { length into.old ≡ self.old.slots.page_bytes }
        ensures answer { Finishes (port_told S.tells self.old) (port_told S.tells self.new) slot
            into.old into.new result }
        ensures steady { IsTrue (S.tells self.old.store).steady
            → KeepsOn (port_told S.tells self.old) (state_at self.old.slots slot) result }

        ensures answered { IsNotUnderWay result }
    {
        match self.slots.task(slot) {
            Task::Read { page } => self.read(slot, page, into),
            Task::Write { page } => self.write(slot, page, into),
            Task::Idle | Task::Failed { .. } => Err(PortWait::Failed),
        }
    }

    /// A page is read straight into `into`, so that no buffer has to be exchanged.
    fn try_take(&mut self, slot: u16, into: &mut Vec<u8>) -> Result<Ready, PortWait>
        requires asked { IsAskedRead (port_told S.tells self.old) slot }
        requires whole { length into.old.items ≡ self.old.slots.page_bytes }
        ensures answer { Finishes (port_told S.tells self.old) (port_told S.tells self.new) slot
            into.old.items into.new.items result }
        ensures whole { length into.new.items ≡ self.old.slots.page_bytes }
        ensures steady { IsTrue (S.tells self.old.store).steady
            → KeepsOn (port_told S.tells self.old) (state_at self.old.slots slot) result }

        ensures answered { IsNotUnderWay result }
    {
        self.try_finish(slot, into.as_mut_slice())
    }
}
