// The frames of a machine.
ghost use Rattle.std.specs.Prelude.{◌≡◌, ◌<◌, length, replicate, IfOk};
ghost use Rattle.mage_network.specs.Network.{put};
ghost use Rattle.mage_bank.specs.Bank.{contents, bank_of, lengths_of, AreOf};

use mage_base::{Memory, zero_pages};
use std::alloc::Global;

/// So many frames of so many bytes each, all of them zero. No other call here takes memory; `Memory` where there is none.
pub fn frames(alloc: Global, count: u32, bytes: u32) -> Result<Vec<Vec<u8>>, Memory>
    ensures zeros { IfOk result (λ frames.
        contents frames.items ≡ replicate count (replicate bytes 0)) }
    ensures lengths { IfOk result (λ frames. AreOf count bytes (contents frames.items)) }
{
    zero_pages(alloc, count, bytes as usize)
}

/// Fills a frame with zero bytes.
pub fn clear(frames: &mut [Vec<u8>], frame: u16)
    requires { frame < length frames.old }
    ensures bank { bank_of (contents frames.new) ≡ put (bank_of (contents frames.old)) frame
        (replicate (length (bank_of (contents frames.old) frame)) 0) }
    ensures lengths { lengths_of (contents frames.new) ≡ lengths_of (contents frames.old) }
{
    fill_with_zeros(&mut frames[usize::from(frame)]);
}

// Zeros in place of all bytes.
fn fill_with_zeros(bytes: &mut [u8])
    ensures { bytes.new ≡ replicate (length bytes.old) 0 }
{
    bytes.fill(0);
}
