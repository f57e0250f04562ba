// Pages between a port and frames.
ghost use Rattle.std.specs.Prelude.{◌≡◌, ◌<◌, length, IsTrue};
ghost use Rattle.mage_port.specs.Port.{AskedWrite, with_state, CanWrite, IsAskedRead, Finishes, KeepsOn, slot_state};
ghost use Rattle.mage_network.specs.Network.{put};
ghost use Rattle.mage_bank.specs.Bank.{contents, bank_of, lengths_of};

use mage_port::{PortWait, Ready, SwapPort};

// Asks whether the read of a slot is done. Its page is then in the frame.
pub(crate) fn take<P: SwapPort>(
    port: &mut P,
    slot: u16,
    frames: &mut [Vec<u8>],
    frame: u16,
) -> Result<Ready, PortWait>
    requires asked { IsAskedRead (P.tells port.old) slot }
    requires inside { frame < length frames.old }
    requires whole { length (bank_of (contents frames.old) frame) ≡ (P.tells port.old).page_bytes }
    ensures answer { Finishes (P.tells port.old) (P.tells port.new) slot
        (bank_of (contents frames.old) frame) (bank_of (contents frames.new) frame) result }
    ensures steady { IsTrue (P.tells port.old).steady
        → KeepsOn (P.tells port.old) (slot_state (P.tells port.old) slot) result }
    ensures bank { bank_of (contents frames.new) ≡ put (bank_of (contents frames.old)) frame
        (bank_of (contents frames.new) frame) }
    ensures lengths { lengths_of (contents frames.new) ≡ lengths_of (contents frames.old) }
{
    port.try_take(slot, &mut frames[usize::from(frame)])
}

// Asks a slot to write a frame, whose bytes are then open.
pub(crate) fn give<P: SwapPort>(
    port: &mut P,
    slot: u16,
    page: u32,
    frames: &mut [Vec<u8>],
    frame: u16,
)
    requires inside { frame < length frames.old }
    requires can { CanWrite (P.tells port.old) slot page (bank_of (contents frames.old) frame) }
    ensures asked { P.tells port.new ≡ with_state (P.tells port.old) slot
        (AskedWrite page (bank_of (contents frames.old) frame)) }
    ensures bank { bank_of (contents frames.new) ≡ put (bank_of (contents frames.old)) frame
        (bank_of (contents frames.new) frame) }
    ensures lengths { lengths_of (contents frames.new) ≡ lengths_of (contents frames.old) }
{
    port.give_write(slot, page, &mut frames[usize::from(frame)]);
}

// Asks a slot to write what a frame holds.
pub(crate) fn copy<P: SwapPort>(port: &mut P, slot: u16, page: u32, frames: &[Vec<u8>], frame: u16)
    requires inside { frame < length frames.now }
    requires can { CanWrite (P.tells port.old) slot page (bank_of (contents frames.now) frame) }
    ensures asked { P.tells port.new ≡ with_state (P.tells port.old) slot
        (AskedWrite page (bank_of (contents frames.now) frame)) }
{
    port.ask_write(slot, page, frames[usize::from(frame)].as_slice());
}
