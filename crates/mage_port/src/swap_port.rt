// What a machine asks for pages.
ghost use Rattle.std.specs.Prelude.{◌≡◌, length, IsTrue};
ghost use Rattle.mage_port.specs.Port.{PortTold, AskedRead, AskedWrite, slot_state, with_state, CanRead, CanWrite, IsAsked, IsAskedRead, Finishes, KeepsOn};

use crate::{PortWait, Ready};

/// Slots, each of which makes one transfer of a page at a time: it is asked for the transfer, and
/// then asked whether the transfer is done. A page is in one slot at most, and is read only once it
/// was written.
///
/// After a failure or a damaged page the slot answers the same for good.
pub trait SwapPort {
    ghost tells: { Self → PortTold };

    /// How many slots the port has.
    fn slots(&self) -> u16
        ensures { result ≡ length (tells self.now).slots };

    /// Asks an idle slot for a page that was written.
    fn ask_read(&mut self, slot: u16, page: u32)
        requires { CanRead (tells self.old) slot page }
        ensures { tells self.new ≡ with_state (tells self.old) slot (AskedRead page) };

    /// Asks an idle slot to write a copy of these bytes to a page.
    fn ask_write(&mut self, slot: u16, page: u32, from: &[u8])
        requires { CanWrite (tells self.old) slot page from.now }
        ensures { tells self.new ≡ with_state (tells self.old) slot (AskedWrite page from.now) };

    /// Asks an idle slot to write this buffer to a page. The buffer is exchanged for another of its
    /// length, of whose bytes nothing is said.
    fn give_write(&mut self, slot: u16, page: u32, from: &mut Vec<u8>)
        requires { CanWrite (tells self.old) slot page from.old.items }
        ensures asked { tells self.new ≡ with_state (tells self.old) slot (AskedWrite page from.old.items) }
        ensures whole { length from.new.items ≡ (tells self.old).page_bytes };

    /// Asks whether the transfer of a slot is done. A page that was read is then in `into`, of
    /// whose bytes nothing is said after `Failed` and after `Damaged`.
    fn try_finish(&mut self, slot: u16, into: &mut [u8]) -> Result<Ready, PortWait>
        requires asked { IsAsked (tells self.old) slot }
        requires whole { length into.old ≡ (tells self.old).page_bytes }
        ensures answer { Finishes (tells self.old) (tells self.new) slot
            into.old into.new result }
        ensures steady { IsTrue (tells self.old).steady
            → KeepsOn (tells self.old) (slot_state (tells self.old) slot) result };

    /// The same of a slot that wasn't asked for a write. A page that was read isn't copied: its
    /// buffer is exchanged for the one in `into`.
    fn try_take(&mut self, slot: u16, into: &mut Vec<u8>) -> Result<Ready, PortWait>
        requires asked { IsAskedRead (tells self.old) slot }
        requires whole { length into.old.items ≡ (tells self.old).page_bytes }
        ensures answer { Finishes (tells self.old) (tells self.new) slot
            into.old.items into.new.items result }
        ensures whole { length into.new.items ≡ (tells self.old).page_bytes }
        ensures steady { IsTrue (tells self.old).steady
            → KeepsOn (tells self.old) (slot_state (tells self.old) slot) result };
}
