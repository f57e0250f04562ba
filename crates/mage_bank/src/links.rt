// Wires between frames and links.
ghost use Rattle.std.specs.Prelude.{◌≡◌, ◌+◌, ◌∷◌, []};
ghost use Rattle.mage_steps.specs.Frames.{spot_of_wire, wire_at, with_wires, sent_form, received_form};
ghost use Rattle.mage_bank.specs.Bank.{contents, bank_of, lengths_of, Lies};

use crate::wires::{pack_at, unpack_at};
use mage_driver::Driver;
use mage_instr::Spot;

/// A wire of a value, counted from 0, as a link carries it: packed, with zero bytes behind.
pub fn send<D: Driver>(driver: &D, frames: &[Vec<u8>], spot: Spot, wire: u8) -> [u8; 16]
    requires lies { Lies D.WIRE_BYTES (contents frames.now) spot (wire + 1) }
    ensures { result ≡ sent_form D.rules
        (wire_at D.rules (bank_of (contents frames.now)) (spot_of_wire spot wire)) }
{
    let place = usize::from(spot.offset) + usize::from(wire);
    link_bytes(
        driver,
        unpack_at(driver, &frames[usize::from(spot.frame)], place),
    )
}

// A wire as a link carries it.
fn link_bytes<D: Driver>(driver: &D, wire: D::Wire) -> [u8; 16]
    ensures { result ≡ sent_form D.rules wire }
{
    let mut bytes = [0; 16];
    driver.pack(wire, &mut bytes[..D::WIRE_BYTES as usize]);
    bytes
}

/// Writes the wire that a link carried as a wire of a value, counted from 0. Every other byte of the frames stays.
pub fn receive<D: Driver>(
    driver: &D,
    bytes: &[u8; 16],
    frames: &mut [Vec<u8>],
    spot: Spot,
    wire: u8,
)
    requires lies { Lies D.WIRE_BYTES (contents frames.old) spot (wire + 1) }
    ensures bank { bank_of (contents frames.new) ≡ with_wires D.rules
        (bank_of (contents frames.old)) (spot_of_wire spot wire)
        (received_form D.rules bytes.now ∷ []) }
    ensures lengths { lengths_of (contents frames.new) ≡ lengths_of (contents frames.old) }
{
    let came = driver.unpack(&bytes[..D::WIRE_BYTES as usize]);
    let place = usize::from(spot.offset) + usize::from(wire);
    pack_at(driver, came, &mut frames[usize::from(spot.frame)], place);
}
