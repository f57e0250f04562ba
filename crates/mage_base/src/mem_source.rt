// A source in memory.
ghost use Rattle.std.specs.Prelude.{◌≡◌, ◌≤◌, ◌↔◌, length, IfOk, IsOk, IsErr, IsTrue};
ghost use Rattle.mage_base.specs.Calls.{is_listed};
ghost use Rattle.mage_base.specs.Faults.{Counted};
ghost use Rattle.mage_base.specs.MemSource.{new_source, source_told, moved_count, filled, after_take};
ghost use Rattle.mage_base.specs.Source.{Takes};

use crate::calls::Calls;
use crate::{Failed, Memory, Source};
use std::alloc::Global;
use std::marker::Model;

#[cfg(test)]
mod tests;

/// Bytes in memory, which are told. Calls can be made to fail by their numbers.
#[derive(Drop)]
pub struct MemSource {
    bytes: Vec<u8>,
    taken: usize,
    faults: u64,
    calls: Calls,
}

impl Model for MemSource {
    ghost use Rattle.std.specs.Prelude.{◌≤◌, drop, vec_len};
    ghost use Rattle.mage_base.specs.MemSource.{SourceState};

    ghost Value = { SourceState };

    ghost view = { λ source. record {
      left = drop source.taken source.bytes.items;
      faults = source.faults;
      calls = source.calls;
    } };

    ghost invariant = { λ source. source.taken ≤ vec_len source.bytes };
}

impl MemSource {
    /// A source of these bytes, of whose calls, counted from 0, those listed are to fail. It is steady where none is.
    pub fn make(alloc: Global, bytes: &[u8], fails: &[u64]) -> Result<MemSource, Memory>
        ensures { IfOk result (λ source. source ≡ new_source bytes.now fails.now) }
    {
        Ok(MemSource {
            bytes: Vec::from_slice(alloc, bytes)?,
            taken: 0,
            faults: 0,
            calls: Calls::make(alloc, fails)?,
        })
    }

    /// The bytes that are left.
    pub fn left(&self) -> &[u8]
        ensures { result.now ≡ self.now.left }
    {
        &self.bytes[self.taken..]
    }

    pub(crate) fn faults(&self) -> u64
        ensures { result ≡ self.now.faults }
    {
        self.faults
    }
}

impl Source for MemSource {
    ghost tells = { source_told };

    fn take(&mut self, into: &mut [u8]) -> Result<usize, Failed>
        ensures within { IfOk result (λ count. count ≤ length into.new) }
        ensures takes { Takes (source_told self.old).left (source_told self.new).left into.new
            result }
        ensures cause { Counted self.old.faults self.new.faults result }
        ensures steady { IsTrue (source_told self.old).steady → IsOk result }

        ensures failed { IsErr result ↔ IsTrue (is_listed self.old.calls) }
        ensures count { IfOk result (λ count. count ≡ moved_count self.old into.old) }
        ensures piece { into.new ≡ filled self.old into.old }
        ensures after { self.new ≡ after_take self.old into.old }
    {
        if self.calls.begin() {
            self.faults = self.faults.saturating_add(1);
            return Err(Failed);
        }
        let count = into.len().min(self.bytes.len() - self.taken);
        into[..count].copy_from_slice(&self.bytes[self.taken..self.taken + count]);
        self.taken += count;
        Ok(count)
    }
}
