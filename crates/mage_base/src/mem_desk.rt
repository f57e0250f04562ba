// A desk in memory.
ghost use Rattle.std.specs.Prelude.{◌≡◌, ◌≤◌, ◌↔◌, [], ◌∷◌, ◌++◌, length, Contains, IsTrue, IfOk, OnOk, OnErr, IsErr, IsSome, IsSomeAnd, IsOk, false, if◌then◌else◌};
ghost use Rattle.mage_base.specs.Calls.{is_listed, counted, after_call};
ghost use Rattle.mage_base.specs.Desk.{with_file, Fetched, Finds, FaultCounted, IsNoFault, IsNotTooLong, HandsSource, HandsSink, HandsStore, after_giving};
ghost use Rattle.mage_base.specs.DeskFails.{lists_nothing, calls_named, calls_of_store};
ghost use Rattle.mage_base.specs.Faults.{Counted, count_after};
ghost use Rattle.mage_base.specs.Ledger.{returned_in};
ghost use Rattle.mage_base.specs.MemDesk.{files_of, desk_told, empty_desk, cannot_find, cannot_say, cannot_warn, after_desk_call, after_say, after_warn};
ghost use Rattle.mage_base.specs.MemSink.{new_sink, sink_told};
ghost use Rattle.mage_base.specs.MemSource.{new_source, source_told};
ghost use Rattle.mage_base.specs.MemStore.{new_state, store_told};

use crate::bounded_bytes::BoundedBytes;
use crate::calls::Calls;
use crate::{Desk, DeskError, DeskFails, Failed, Ledger, MemSink, MemSource, MemStore, Memory};
use std::alloc::Global;
use std::marker::Model;

mod file_table;
mod handed_fails;

use file_table::FileTable;
use handed_fails::HandedFails;

#[cfg(test)]
mod tests;

/// A desk in memory. It tells everything but the logs of its stores, which keep none. Calls can be made to fail by their
/// numbers, counted from 0 over `fetch`, `open_in`, `open_out`, `close_out`, `store`, `say` and `warn` together.
#[derive(Drop)]
pub struct MemDesk {
    files: FileTable,
    said: BoundedBytes,
    warned: BoundedBytes,
    faults: u64,
    calls: Calls,
    fails: HandedFails,
    ledger: Ledger,
}

impl Model for MemDesk {
    ghost use Rattle.mage_base.specs.MemDesk.{DeskState};

    ghost Value = { DeskState };

    ghost view = { λ desk. record {
      files = desk.files;
      said = desk.said;
      warned = desk.warned;
      faults = desk.faults;
      calls = desk.calls;
      fails = desk.fails;
      ledger = desk.ledger;
    } };
}

impl MemDesk {
    /// A desk without a file, with room for `said_room` bytes to be said and as many to be warned. All of the room is
    /// taken here, so no `say` and no `warn` wants memory. It is steady where `fails` lists no call.
    pub fn make(alloc: Global, said_room: u64, fails: &DeskFails) -> Result<MemDesk, Memory>
        ensures desk { IfOk result (λ desk. desk ≡ empty_desk said_room fails.now) }
        ensures steady { IfOk result (λ desk. (desk_told desk).steady ≡ lists_nothing fails.now) }
    {
        Ok(MemDesk {
            files: FileTable::new(alloc),
            said: BoundedBytes::make(alloc, said_room)?,
            warned: BoundedBytes::make(alloc, said_room)?,
            faults: 0,
            calls: Calls::make(alloc, fails.desk.as_slice())?,
            fails: HandedFails::make(alloc, fails)?,
            ledger: Ledger::new(alloc),
        })
    }

    /// Puts a file in, in place of one of that name. After `Memory` nothing changed.
    pub fn add(&mut self, name: &str, bytes: &[u8]) -> Result<(), Memory>
        ensures file { OnOk result
            (files_of self.new ≡ with_file (files_of self.old) name.now bytes.now) }
        ensures rest { OnOk result (self.new ≡ record self.old { files = self.new.files }) }
        ensures err { OnErr result (self.new ≡ self.old) }
    {
        let alloc = self.said.allocator();
        self.files.put(alloc, name, bytes)
    }

    /// What was said so far.
    pub fn said(&self) -> &[u8]
        ensures { result.now ≡ self.now.said.bytes }
    {
        self.said.as_slice()
    }

    /// What was warned so far.
    pub fn warned(&self) -> &[u8]
        ensures { result.now ≡ self.now.warned.bytes }
    {
        self.warned.as_slice()
    }

    /// How many pages were read of the worker's stores that were given back.
    pub fn reads(&self, worker: u16) -> u64
        ensures { result ≡ ((desk_told self.now).returned worker).reads }
    {
        self.ledger.returned(worker).reads
    }

    /// How many pages were written of the worker's stores that were given back.
    pub fn writes(&self, worker: u16) -> u64
        ensures { result ≡ ((desk_told self.now).returned worker).writes }
    {
        self.ledger.returned(worker).writes
    }

    /// Counts one more call, and tells whether it is to fail, which is a fault.
    fn begin(&mut self) -> bool
        ensures listed { result ≡ is_listed self.old.calls }
        ensures steady { IsTrue (desk_told self.old).steady → result ≡ false }
        ensures rises { self.old.faults ≤ self.new.faults }
        ensures after { self.new ≡ after_desk_call self.old (is_listed self.old.calls) }
    {
        let listed = self.calls.begin();
        if listed {
            self.faults = self.faults.saturating_add(1);
        }
        listed
    }

    fn count_faults(&mut self, more: u64)
        ensures rises { self.old.faults ≤ self.new.faults }
        ensures after { self.new ≡ record self.old { faults = count_after self.old.faults more } }
    {
        self.faults = self.faults.saturating_add(more);
    }
}

impl Desk for MemDesk {
    type Input = MemSource;

    type Output = MemSink;

    type Pages = MemStore;

    ghost tells = { desk_told };

    fn fetch(&mut self, alloc: Global, name: &str, limit: u64) -> Result<Vec<u8>, DeskError>
        ensures found { Fetched (files_of self.old name.now) limit result }
        ensures within { IfOk result (λ bytes. length bytes.items ≤ limit) }
        ensures cause { FaultCounted self.old.faults self.new.faults result }
        ensures steady { Finds (desk_told self.old) name.now result }

        ensures fault { (result ≡ Err DeskError.Fault) ↔ IsTrue (cannot_find self.old name.now) }
        ensures after { self.new ≡ after_desk_call self.old (cannot_find self.old name.now) }
    {
        if self.begin() {
            return Err(DeskError::Fault);
        }
        let Some(bytes) = self.files.find(name) else {
            self.count_faults(1);
            return Err(DeskError::Fault);
        };
        if bytes.len() as u64 > limit {
            return Err(DeskError::TooLong);
        }
        Vec::from_slice(alloc, bytes).map_err(|_| DeskError::Memory)
    }

    fn open_in(&mut self, alloc: Global, name: &str) -> Result<MemSource, DeskError>
        ensures source { IfOk result (λ source.
            HandsSource (desk_told self.old) name.now (source_told source)) }
        ensures short { IsNotTooLong result }
        ensures cause { FaultCounted self.old.faults self.new.faults result }
        ensures steady { Finds (desk_told self.old) name.now result }

        ensures made { IfOk result (λ source. IsSomeAnd (files_of self.old name.now) (λ bytes.
            source ≡ new_source bytes (calls_named self.old.fails.inputs name.now))) }
        ensures fault { (result ≡ Err DeskError.Fault) ↔ IsTrue (cannot_find self.old name.now) }
        ensures after { self.new ≡ after_desk_call self.old (cannot_find self.old name.now) }
    {
        if self.begin() {
            return Err(DeskError::Fault);
        }
        let Some(bytes) = self.files.find(name) else {
            self.count_faults(1);
            return Err(DeskError::Fault);
        };
        MemSource::make(alloc, bytes, self.fails.input(name)).map_err(|_| DeskError::Memory)
    }

    fn close_in(&mut self, _name: &str, source: MemSource)
        ensures counted { self.new
            ≡ record self.old { faults = count_after self.old.faults source.faults } }
        ensures rises { self.old.faults ≤ self.new.faults }
        ensures quiet { source.faults ≡ 0 → self.new.faults ≡ self.old.faults }
    {
        self.count_faults(source.faults());
    }

    fn open_out(&mut self, alloc: Global, name: &str, room: u64) -> Result<MemSink, DeskError>
        ensures sink { IfOk result (λ sink. HandsSink (desk_told self.old) room (sink_told sink)) }
        ensures short { IsNotTooLong result }
        ensures cause { FaultCounted self.old.faults self.new.faults result }
        ensures steady { IsTrue (desk_told self.old).steady → IsNoFault result }

        ensures made { IfOk result (λ sink.
            sink ≡ new_sink room (calls_named self.old.fails.outputs name.now)) }
        ensures fault { (result ≡ Err DeskError.Fault) ↔ IsTrue (is_listed self.old.calls) }
        ensures file { OnOk result (files_of self.new ≡ with_file (files_of self.old) name.now []) }
        ensures err { OnErr result (self.new.files ≡ self.old.files) }
        ensures after { self.new
            ≡ record (after_desk_call self.old (is_listed self.old.calls))
            { files = self.new.files } }
    {
        if self.begin() {
            return Err(DeskError::Fault);
        }
        let Ok(sink) = MemSink::make(alloc, room, self.fails.output(name)) else {
            return Err(DeskError::Memory);
        };
        match self.files.put(alloc, name, &[]) {
            Ok(()) => Ok(sink),
            Err(_) => Err(DeskError::Memory),
        }
    }

    /// A call that is to fail leaves the file empty.
    fn close_out(&mut self, name: &str, sink: MemSink) -> Result<(), Failed>
        requires { IsSome (files_of self.old name.now) }
        ensures rises { self.old.faults ≤ self.new.faults }
        ensures quiet { sink.faults ≡ 0 → OnOk result (self.new.faults ≡ self.old.faults) }
        ensures steady { IsTrue (desk_told self.old).steady → IsOk result }

        ensures failed { IsErr result ↔ IsTrue (is_listed self.old.calls) }
        ensures file { files_of self.new ≡ with_file (files_of self.old) name.now
            (if is_listed self.old.calls then [] else sink.taken.bytes) }
        ensures after { self.new ≡ record self.old {
          files = self.new.files;
          faults = counted (is_listed self.old.calls) (count_after self.old.faults sink.faults);
          calls = after_call self.old.calls;
        } }
    {
        self.count_faults(sink.faults());
        let mut bytes = sink.into_taken();
        let failed = self.begin();
        if failed {
            bytes.clear();
        }
        self.files.replace(name, bytes);
        if failed { Err(Failed) } else { Ok(()) }
    }

    fn store(
        &mut self,
        alloc: Global,
        worker: u16,
        shard: u16,
        pages: u32,
        page_bytes: u32,
    ) -> Result<MemStore, DeskError>
        ensures store { IfOk result (λ store.
            HandsStore (desk_told self.old) pages page_bytes (store_told store)) }
        ensures short { IsNotTooLong result }
        ensures cause { FaultCounted self.old.faults self.new.faults result }
        ensures steady { IsTrue (desk_told self.old).steady → IsNoFault result }

        ensures made { IfOk result (λ store. store
            ≡ new_state pages page_bytes (calls_of_store self.old.fails.stores worker shard)) }
        ensures fault { (result ≡ Err DeskError.Fault) ↔ IsTrue (is_listed self.old.calls) }
        ensures lent { OnOk result (self.new.ledger.lent
            ≡ self.old.ledger.lent ++ record { worker = worker; shard = shard } ∷ []) }
        ensures err { OnErr result (self.new.ledger.lent ≡ self.old.ledger.lent) }
        ensures returned { returned_in self.new.ledger.totals ≡ returned_in self.old.ledger.totals }
        ensures after { self.new
            ≡ record (after_desk_call self.old (is_listed self.old.calls))
            { ledger = self.new.ledger } }
    {
        if self.begin() {
            return Err(DeskError::Fault);
        }
        let fails = self.fails.store(worker, shard);
        let Ok(store) = MemStore::make(alloc, pages, page_bytes, fails) else {
            return Err(DeskError::Memory);
        };
        match self.ledger.lend(worker, shard) {
            Ok(()) => Ok(store),
            Err(_) => Err(DeskError::Memory),
        }
    }

    fn give_store(&mut self, worker: u16, shard: u16, store: MemStore)
        requires { Contains self.old.ledger.lent (record { worker = worker; shard = shard }) }
        ensures told { desk_told self.new
            ≡ after_giving (desk_told self.old) (record { worker = worker; shard = shard })
            (store_told store) }
        ensures after { self.new ≡ record self.old { ledger = self.new.ledger } }
    {
        self.ledger.give(worker, shard, store.counts());
    }

    fn say(&mut self, bytes: &[u8]) -> Result<(), Failed>
        ensures cause { Counted self.old.faults self.new.faults result }
        ensures steady { IsTrue (desk_told self.old).steady
            → length bytes.now ≤ (desk_told self.old).room
            → IsOk result }

        ensures failed { IsErr result ↔ IsTrue (cannot_say self.old bytes.now) }
        ensures after { self.new ≡ after_say self.old bytes.now }
    {
        if self.begin() {
            return Err(Failed);
        }
        if !self.said.add(bytes) {
            self.count_faults(1);
            return Err(Failed);
        }
        Ok(())
    }

    fn warn(&mut self, bytes: &[u8]) -> Result<(), Failed>
        ensures cause { Counted self.old.faults self.new.faults result }
        ensures steady { IsTrue (desk_told self.old).steady
            → length bytes.now ≤ (desk_told self.old).warn_room → IsOk result }

        ensures failed { IsErr result ↔ IsTrue (cannot_warn self.old bytes.now) }
        ensures after { self.new ≡ after_warn self.old bytes.now }
    {
        if self.begin() {
            return Err(Failed);
        }
        if !self.warned.add(bytes) {
            self.count_faults(1);
            return Err(Failed);
        }
        Ok(())
    }
}
