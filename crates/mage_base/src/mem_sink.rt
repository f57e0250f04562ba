// A sink in memory.
ghost use Rattle.std.specs.Prelude.{◌≡◌, ◌≤◌, ◌+◌, ◌↔◌, length, IfOk, IsOk, IsErr, IsTrue, OnOk};
ghost use Rattle.mage_base.specs.Faults.{Counted};
ghost use Rattle.mage_base.specs.MemSink.{new_sink, sink_told, cannot_put, after_put};
ghost use Rattle.mage_base.specs.Sink.{Puts};

use crate::bounded_bytes::BoundedBytes;
use crate::calls::Calls;
use crate::{Failed, Memory, Sink};
use std::alloc::Global;
use std::marker::Model;

#[cfg(test)]
mod tests;

/// What is put, in memory; it is told. Calls can be made to fail by their numbers.
#[derive(Drop)]
pub struct MemSink {
    taken: BoundedBytes,
    faults: u64,
    calls: Calls,
}

impl Model for MemSink {
    ghost use Rattle.mage_base.specs.MemSink.{SinkState};

    ghost Value = { SinkState };

    ghost view = { λ sink.
        record { taken = sink.taken; faults = sink.faults; calls = sink.calls } };
}

impl MemSink {
    /// A sink with room for so many bytes, of whose calls, counted from 0, those listed are to fail. It is steady where
    /// none is. All of the room is taken here, so no `put` wants memory.
    pub fn make(alloc: Global, room: u64, fails: &[u64]) -> Result<MemSink, Memory>
        ensures { IfOk result (λ sink. sink ≡ new_sink room fails.now) }
    {
        Ok(MemSink {
            taken: BoundedBytes::make(alloc, room)?,
            faults: 0,
            calls: Calls::make(alloc, fails)?,
        })
    }

    /// The bytes that it has taken.
    pub fn taken(&self) -> &[u8]
        ensures { result.now ≡ self.now.taken.bytes }
    {
        self.taken.as_slice()
    }

    pub(crate) fn faults(&self) -> u64
        ensures { result ≡ self.now.faults }
    {
        self.faults
    }

    pub(crate) fn into_taken(self) -> Vec<u8>
        ensures { result.items ≡ self.taken.bytes }
    {
        let MemSink {
            taken,
            faults: _,
            calls: _,
        } = self;
        taken.into_bytes()
    }
}

impl Sink for MemSink {
    ghost tells = { sink_told };

    fn put(&mut self, bytes: &[u8]) -> Result<(), Failed>
        ensures puts { Puts result (sink_told self.old).taken bytes.now (sink_told self.new).taken }
        ensures cause { Counted self.old.faults self.new.faults result }
        ensures steady { IsTrue (sink_told self.old).steady
            → length bytes.now ≤ (sink_told self.old).room
            → IsOk result }
        ensures room { IsTrue (sink_told self.old).steady
            → OnOk result
            ((sink_told self.new).room + length bytes.now ≡ (sink_told self.old).room) }

        ensures failed { IsErr result ↔ IsTrue (cannot_put self.old bytes.now) }
        ensures after { self.new ≡ after_put self.old bytes.now }
    {
        if self.calls.begin() || !self.taken.add(bytes) {
            self.faults = self.faults.saturating_add(1);
            return Err(Failed);
        }
        Ok(())
    }
}
