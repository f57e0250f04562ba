// A port over another one, whose transfers take a while.
ghost use Rattle.std.specs.Prelude.{◌≡◌};
ghost use Rattle.mage_engine_tests.specs.Slow.{slow_told, counted};

use mage_port::{PortWait, Ready, SwapPort};
use std::marker::Model;

/// A port over another one. The transfer that was asked for last is under way for so many asks, and only then made.
#[derive(Drop)]
pub struct SlowPort<P: SwapPort> {
    port: P,
    asks: u32,
    // The slot that was asked last, and for how many asks its transfer is still under way.
    slot: u16,
    left: u32,
    waits: u64,
}

impl<P: SwapPort> Model for SlowPort<P> {
    ghost use Rattle.mage_engine_tests.specs.Slow.{SlowState, MayWait};

    ghost Value = { SlowState P };

    ghost view = { λ slow. record {
      port = slow.port;
      waits = slow.waits;
    } };

    ghost invariant = { λ slow. MayWait (P.tells slow.port) slow.left slow.slot };
}

impl<P: SwapPort> SlowPort<P> {
    /// A port over this one, each of whose transfers is under way for so many asks.
    pub fn over(port: P, asks: u32) -> SlowPort<P>
        ensures { slow_told P.tells result ≡ counted (P.tells port) 0 }
    {
        SlowPort {
            port,
            asks,
            slot: 0,
            left: 0,
            waits: 0,
        }
    }
}

impl<P: SwapPort> SwapPort for SlowPort<P> {
    ghost tells = { slow_told P.tells };

    fn slots(&self) -> u16 {
        self.port.slots()
    }

    fn ask_read(&mut self, slot: u16, page: u32) {
        self.port.ask_read(slot, page);
        self.slot = slot;
        self.left = self.asks;
    }

    fn ask_write(&mut self, slot: u16, page: u32, from: &[u8]) {
        self.port.ask_write(slot, page, from);
        self.slot = slot;
        self.left = self.asks;
    }

    fn give_write(&mut self, slot: u16, page: u32, from: &mut Vec<u8>) {
        self.port.give_write(slot, page, from);
        self.slot = slot;
        self.left = self.asks;
    }

    fn try_finish(&mut self, slot: u16, into: &mut [u8]) -> Result<Ready, PortWait> {
        if self.left > 0 && self.slot == slot {
            self.left -= 1;
            self.waits = self.waits.saturating_add(1);
            return Err(PortWait::Pending);
        }
        self.left = 0;
        match self.port.try_finish(slot, into) {
            Ok(ready) => Ok(ready),
            Err(PortWait::Pending) => {
                self.waits = self.waits.saturating_add(1);
                Err(PortWait::Pending)
            }
            Err(PortWait::Failed) => Err(PortWait::Failed),
            Err(PortWait::Damaged(damage)) => Err(PortWait::Damaged(damage)),
        }
    }

    fn try_take(&mut self, slot: u16, into: &mut Vec<u8>) -> Result<Ready, PortWait> {
        if self.left > 0 && self.slot == slot {
            self.left -= 1;
            self.waits = self.waits.saturating_add(1);
            return Err(PortWait::Pending);
        }
        self.left = 0;
        match self.port.try_take(slot, into) {
            Ok(ready) => Ok(ready),
            Err(PortWait::Pending) => {
                self.waits = self.waits.saturating_add(1);
                Err(PortWait::Pending)
            }
            Err(PortWait::Failed) => Err(PortWait::Failed),
            Err(PortWait::Damaged(damage)) => Err(PortWait::Damaged(damage)),
        }
    }
}
