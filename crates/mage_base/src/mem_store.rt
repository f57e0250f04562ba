// A store in memory.
ghost use Rattle.std.specs.Prelude.{◌≡◌, ◌<◌, ◌↔◌, length, IfOk, IsOk, IsErr, IsTrue, OnErr};
ghost use Rattle.mage_base.specs.Faults.{Counted, top};
ghost use Rattle.mage_base.specs.MemStore.{new_state, store_told, cannot_move, after_read_of, after_write_of};
ghost use Rattle.mage_base.specs.Store.{Reads, Writes};

use crate::calls::Calls;
use crate::{Failed, Memory, Store, StoreCounts, overwrite, zero_pages};
use std::alloc::Global;
use std::marker::Model;

#[cfg(test)]
mod tests;

/// Pages in memory, which are told. Calls can be made to fail by their numbers, over reads and writes together.
#[derive(Drop)]
pub struct MemStore {
    page_bytes: u32,
    pages: Vec<Vec<u8>>,
    reads: u64,
    writes: u64,
    faults: u64,
    calls: Calls,
}

impl Model for MemStore {
    ghost use Rattle.std.specs.Prelude.{◌≡◌, map, length};
    ghost use Rattle.std.specs.List.{All};
    ghost use Rattle.mage_base.specs.MemStore.{StoreState};

    ghost Value = { StoreState };

    ghost view = { λ store. record {
      page_bytes = store.page_bytes;
      pages = map (λ page. page.items) store.pages.items;
      reads = store.reads;
      writes = store.writes;
      faults = store.faults;
      calls = store.calls;
    } };

    ghost invariant = { λ store.
        All (λ page. length page.items ≡ store.page_bytes) store.pages.items };
}

impl MemStore {
    /// A store of so many pages of zeros, of whose calls, counted from 0, those listed are to fail. It is steady where
    /// none is. All of the room is taken here.
    pub fn make(
        alloc: Global,
        pages: u32,
        page_bytes: u32,
        fails: &[u64],
    ) -> Result<MemStore, Memory>
        ensures { IfOk result (λ store. store ≡ new_state pages page_bytes fails.now) }
    {
        Ok(MemStore {
            page_bytes,
            pages: zero_pages(alloc, pages, page_bytes as usize)?,
            reads: 0,
            writes: 0,
            faults: 0,
            calls: Calls::make(alloc, fails)?,
        })
    }

    /// How many pages were read and written, and how often a call failed.
    pub fn counts(&self) -> StoreCounts
        ensures { result ≡ record {
          reads = self.now.reads;
          writes = self.now.writes;
          faults = self.now.faults;
        } }
    {
        StoreCounts {
            reads: self.reads,
            writes: self.writes,
            faults: self.faults,
        }
    }
}

impl Store for MemStore {
    ghost tells = { store_told };

    fn read(&mut self, page: u32, into: &mut [u8]) -> Result<(), Failed>
        requires { length into.old ≡ self.old.page_bytes }
        ensures reads { Reads (store_told self.old) (store_told self.new) page into.new result }
        ensures cause { Counted self.old.faults self.new.faults result }
        ensures steady { IsTrue (store_told self.old).steady
            → page < (store_told self.old).page_count
            → (store_told self.old).reads < top → IsOk result }

        ensures failed { IsErr result ↔ IsTrue (cannot_move self.old page self.old.reads) }
        ensures after { self.new ≡ after_read_of self.old page }
        ensures kept { OnErr result (into.new ≡ into.old) }
    {
        if self.calls.begin() || page as usize >= self.pages.len() || self.reads == u64::MAX {
            self.faults = self.faults.saturating_add(1);
            return Err(Failed);
        }
        into.copy_from_slice(&self.pages[page as usize]);
        self.reads += 1;
        Ok(())
    }

    fn write(&mut self, page: u32, from: &[u8]) -> Result<(), Failed>
        requires { length from.now ≡ self.old.page_bytes }
        ensures writes { Writes (store_told self.old) (store_told self.new) page from.now result }
        ensures cause { Counted self.old.faults self.new.faults result }
        ensures steady { IsTrue (store_told self.old).steady
            → page < (store_told self.old).page_count
            → (store_told self.old).writes < top → IsOk result }

        ensures failed { IsErr result ↔ IsTrue (cannot_move self.old page self.old.writes) }
        ensures after { self.new ≡ after_write_of self.old page from.now }
    {
        if self.calls.begin() || page as usize >= self.pages.len() || self.writes == u64::MAX {
            self.faults = self.faults.saturating_add(1);
            return Err(Failed);
        }
        overwrite(&mut self.pages, page as usize, from);
        self.writes += 1;
        Ok(())
    }
}
