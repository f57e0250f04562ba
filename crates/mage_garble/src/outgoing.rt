// Bytes on their way to a sink.
ghost use Rattle.std.specs.Prelude.{◌≡◌, ◌≤◌, ◌+◌, length, IfErr, IfOk, IsTrue, OnOk, Result};
ghost use Rattle.mage_base.specs.Sink.{SinkTold};
ghost use Rattle.mage_instr.specs.declared.fault.DriverFault.TheVariants as fault;
ghost use Rattle.mage_garble.specs.Sending.{Broke, flushed, most_waiting, sending_to, tells_taken, with_room, with_waiting};

use mage_base::{Failed, Memory, Sink};
use mage_instr::DriverFault;
use std::alloc::Global;
use std::marker::Model;

// How many bytes may wait.
const MOST_WAITING: usize = 4096;

/// Bytes that wait to be put into a sink together, so that few calls of it are made.
pub(crate) struct Outgoing<K: Sink> {
    sink: K,
    waiting: Vec<u8>,
}

impl<K: Sink> Model for Outgoing<K> {
    ghost use Rattle.std.specs.Prelude.{◌≤◌, vec_len, vec_capacity};
    ghost use Rattle.mage_garble.specs.Sending.{Outgoing, most_waiting, sending_to, tells_taken, with_waiting};

    ghost Value = { Outgoing };

    ghost view = { λ o. record {
      sending = with_waiting (sending_to (K.tells o.sink)) o.waiting.items;
      faults = (K.tells o.sink).faults;
      told = tells_taken (K.tells o.sink);
    } };

    ghost invariant = { λ o. (vec_len o.waiting ≤ most_waiting) × (most_waiting ≤ vec_capacity o.waiting) };
}

impl<K: Sink> Outgoing<K> {
    /// Nothing waits yet. All memory is taken here; where there is none, the sink is handed back.
    pub(crate) fn make(alloc: Global, sink: K) -> Result<Outgoing<K>, (K, Memory)>
        ensures made { IfOk result (λ out. out ≡ record {
          sending = sending_to (K.tells sink);
          faults = (K.tells sink).faults;
          told = tells_taken (K.tells sink);
        }) }
        ensures back { IfErr result (λ failed. failed.0 ≡ sink) }
    {
        match Vec::with_capacity(alloc, MOST_WAITING) {
            Ok(waiting) => Ok(Outgoing { sink, waiting }),
            Err(_) => Err((sink, Memory)),
        }
    }

    /// Puts all that waits into the sink.
    pub(crate) fn flush(&mut self) -> Result<(), DriverFault>
        ensures flushed { OnOk result (self.new ≡ record self.old {
          sending = record (flushed self.old.sending) { stream = self.new.sending.stream };
        }) }
        ensures stream { OnOk result (IsTrue self.old.told
            → self.new.sending.stream ≡ (flushed self.old.sending).stream) }
        ensures sink { IfErr result (λ f. f ≡ fault.Sink) }
        ensures broke { IfErr result (λ f. Broke self.old self.new) }
    {
        match self.sink.put(self.waiting.as_slice()) {
            Ok(()) => {
                self.waiting.clear();
                Ok(())
            }
            Err(Failed) => Err(DriverFault::Sink),
        }
    }

    /// Sees to it that so many more bytes may wait.
    pub(crate) fn begin(&mut self, more: usize) -> Result<(), DriverFault>
        requires { more ≤ most_waiting }
        ensures room { OnOk result (self.new ≡ record self.old {
          sending = record (with_room self.old.sending more) { stream = self.new.sending.stream };
        }) }
        ensures stream { OnOk result (IsTrue self.old.told
            → self.new.sending.stream ≡ (with_room self.old.sending more).stream) }
        ensures fits { OnOk result (length self.new.sending.waiting + more ≤ most_waiting) }
        ensures sink { IfErr result (λ f. f ≡ fault.Sink) }
        ensures broke { IfErr result (λ f. Broke self.old self.new) }
        ensures puts { IfErr result (λ f. with_room self.old.sending more ≡ flushed self.old.sending) }
    {
        if self.waiting.len() + more <= MOST_WAITING {
            return Ok(());
        }
        self.flush()
    }

    /// Lets more bytes wait.
    pub(crate) fn add(&mut self, bytes: &[u8])
        requires { length self.old.sending.waiting + length bytes.now ≤ most_waiting }
        ensures { self.new ≡ record self.old { sending = with_waiting self.old.sending bytes.now } }
    {
        self.waiting.extend_from_slice(bytes).unwrap();
    }

    /// Hands the sink back. What waits is lost.
    pub(crate) fn into_sink(self) -> K
        ensures { self ≡ record {
          sending = with_waiting (sending_to (K.tells result)) self.sending.waiting;
          faults = (K.tells result).faults;
          told = tells_taken (K.tells result);
        } }
    {
        let Outgoing { sink, waiting: _ } = self;
        sink
    }
}
