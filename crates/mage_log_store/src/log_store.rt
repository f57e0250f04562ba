// A store in memory that keeps a log and may lie.
ghost use Rattle.std.specs.Prelude.{◌≡◌, ◌<◌, ◌↔◌, length, map, replicate, set, vec_len, IfOk, IsErr, IsTrue, OnOk, OnErr};
ghost use Rattle.std.specs.List.{All};
ghost use Rattle.mage_base.specs.Faults.{Counted};
ghost use Rattle.mage_base.specs.Store.{Reads, Writes, zero_page};
ghost use Rattle.mage_log_store.specs.LogStore.{new_state, log_told, flipped, lied, cannot_move, answer_of, after_read_of, after_write_of};

use crate::Lie;
use mage_base::{Failed, Items, Memory, Store, StoreCounts, overwrite, zero_pages};
use mage_history::PageHistory;
use std::alloc::Global;
use std::marker::Model;

#[cfg(test)]
mod tests;

/// Pages in memory, which aren't told; the log of transfers is. Reads can be made to answer
/// falsely.
#[derive(Drop)]
pub struct LogStore {
    page_bytes: u32,
    pages: Vec<Vec<u8>>,
    reads: u64,
    writes: u64,
    faults: u64,
    left: u64,
    lies: Items<Lie>,
    log: PageHistory,
}

impl Model for LogStore {
    ghost use Rattle.std.specs.Prelude.{◌≡◌, map, length};
    ghost use Rattle.std.specs.List.{All};
    ghost use Rattle.mage_log_store.specs.LogStore.{LogState};

    ghost Value = { LogState };

    ghost view = { λ store. record {
      page_bytes = store.page_bytes;
      pages = map (λ page. page.items) store.pages.items;
      reads = store.reads;
      writes = store.writes;
      faults = store.faults;
      left = store.left;
      lies = store.lies;
      log = store.log.transfers;
    } };

    ghost invariant = { λ store. All (λ page. length page.items ≡ store.page_bytes)
        store.pages.items };
}

impl LogStore {
    /// A store of so many pages of zeros. Its first `calls` calls, over reads and writes together,
    /// may succeed, and all later ones fail. All of the room is taken here.
    pub fn make(
        alloc: Global,
        pages: u32,
        page_bytes: u32,
        calls: u64,
        lies: &[Lie],
    ) -> Result<LogStore, Memory>
        ensures { IfOk result (λ store. store ≡ new_state pages page_bytes calls lies.now) }
    {
        Ok(LogStore {
            page_bytes,
            pages: zero_pages(alloc, pages, page_bytes as usize)?,
            reads: 0,
            writes: 0,
            faults: 0,
            left: calls,
            lies: Items::from_slice(alloc, lies)?,
            log: PageHistory::new(),
        })
    }

    /// How many pages were read and written, and how often a call failed.
    pub fn counts(&self) -> StoreCounts
        ensures { result ≡ record {
          reads = self.now.reads;
          writes = self.now.writes;
          faults = self.now.faults;
        } }
    {
        StoreCounts {
            reads: self.reads,
            writes: self.writes,
            faults: self.faults,
        }
    }

    pub(crate) fn log(&self) -> &PageHistory
        ensures { result.now.transfers ≡ self.now.log }
    {
        &self.log
    }
}

// Xors a byte with a mask, where there is one.
fn flip(bytes: &mut [u8], byte: usize, mask: u8)
    ensures { bytes.new ≡ flipped bytes.old byte mask }
{
    if byte < bytes.len() {
        bytes[byte] ^= mask;
    }
}

// Tells all lies on the read of this number.
fn tell(lies: &[Lie], read: u64, bytes: &mut [u8])
    ensures { bytes.new ≡ lied lies.now read bytes.old }
{
    for lie in lies {
        if lie.read == read {
            flip(bytes, lie.byte as usize, lie.mask);
        }
    }
}

impl Store for LogStore {
    ghost tells = { log_told };

    fn read(&mut self, page: u32, into: &mut [u8]) -> Result<(), Failed>
        requires { length into.old ≡ self.old.page_bytes }
        ensures reads { Reads (log_told self.old) (log_told self.new) page into.new result }
        ensures cause { Counted self.old.faults self.new.faults result }

        ensures failed { IsErr result ↔ IsTrue (cannot_move self.old page self.old.reads) }
        ensures answer { OnOk result (into.new ≡ answer_of self.old page) }
        ensures after { self.new ≡ after_read_of self.old page }
        ensures kept { OnErr result (into.new ≡ into.old) }
    {
        let late = self.left == 0;
        self.left = self.left.saturating_sub(1);
        if late || page as usize >= self.pages.len() || self.reads == u64::MAX {
            self.faults = self.faults.saturating_add(1);
            return Err(Failed);
        }
        into.copy_from_slice(&self.pages[page as usize]);
        tell(self.lies.as_slice(), self.reads, into);
        self.log.note_read(&page, into);
        self.reads += 1;
        Ok(())
    }

    fn write(&mut self, page: u32, from: &[u8]) -> Result<(), Failed>
        requires { length from.now ≡ self.old.page_bytes }
        ensures writes { Writes (log_told self.old) (log_told self.new) page from.now result }
        ensures cause { Counted self.old.faults self.new.faults result }

        ensures failed { IsErr result ↔ IsTrue (cannot_move self.old page self.old.writes) }
        ensures after { self.new ≡ after_write_of self.old page from.now }
    {
        let late = self.left == 0;
        self.left = self.left.saturating_sub(1);
        if late || page as usize >= self.pages.len() || self.writes == u64::MAX {
            self.faults = self.faults.saturating_add(1);
            return Err(Failed);
        }
        overwrite(&mut self.pages, page as usize, from);
        self.log.note_write(&page, from);
        self.writes += 1;
        Ok(())
    }
}
