// Bytes that are added up to a room.
ghost use Rattle.std.specs.Prelude.{◌≡◌, not, IfOk};
ghost use Rattle.mage_base.specs.Bounded.{no_bytes, passes_room, with_fitting};

use crate::Memory;
use std::alloc::Global;
use std::marker::Model;

/// Bytes in memory that was taken beforehand, so that adding to them takes none.
#[derive(Drop)]
pub(crate) struct BoundedBytes {
    bytes: Vec<u8>,
    room: usize,
}

impl Model for BoundedBytes {
    ghost use Rattle.std.specs.Prelude.{◌≤◌, vec_len, vec_capacity};
    ghost use Rattle.mage_base.specs.Bounded.{Bounded};

    ghost Value = { Bounded };

    ghost view = { λ held. record { bytes = held.bytes.items; room = held.room } };

    ghost invariant = { λ held.
        (vec_len held.bytes ≤ held.room) × (held.room ≤ vec_capacity held.bytes) };
}

impl BoundedBytes {
    pub(crate) fn make(alloc: Global, room: u64) -> Result<BoundedBytes, Memory>
        ensures { IfOk result (λ held. held ≡ no_bytes room) }
    {
        Ok(BoundedBytes {
            bytes: Vec::with_capacity(alloc, room as usize)?,
            room: room as usize,
        })
    }

    /// Adds what fits, and tells whether that was all.
    pub(crate) fn add(&mut self, bytes: &[u8]) -> bool
        ensures all { result ≡ not (passes_room self.old bytes.now) }
        ensures after { self.new ≡ with_fitting self.old bytes.now }
    {
        let fits = bytes.len().min(self.room - self.bytes.len());
        self.bytes.extend_from_slice(&bytes[..fits]).unwrap();
        fits == bytes.len()
    }

    pub(crate) fn allocator(&self) -> Global {
        *self.bytes.allocator()
    }

    pub(crate) fn as_slice(&self) -> &[u8]
        ensures { result.now ≡ self.now.bytes }
    {
        self.bytes.as_slice()
    }

    pub(crate) fn into_bytes(self) -> Vec<u8>
        ensures { result.items ≡ self.bytes }
    {
        let BoundedBytes { bytes, room: _ } = self;
        bytes
    }
}
