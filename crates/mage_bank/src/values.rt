// Values in frames.
ghost use Rattle.std.specs.Prelude.{◌≡◌, length};
ghost use Rattle.mage_steps.specs.Frames.{wires_at, with_wires};
ghost use Rattle.mage_bank.specs.Bank.{contents, bank_of, lengths_of, Lies};

use crate::wires::{pack_each, unpack_each};
use mage_driver::Driver;
use mage_instr::Spot;

/// Reads the wires of a value, lowest first, as many as there is room for.
pub fn load<D: Driver>(driver: &D, frames: &[Vec<u8>], spot: Spot, into: &mut [D::Wire])
    requires lies { Lies D.WIRE_BYTES (contents frames.now) spot (length into.old) }
    ensures { into.new
        ≡ wires_at D.rules (bank_of (contents frames.now)) spot (length into.old) }
{
    unpack_each(
        driver,
        &frames[usize::from(spot.frame)],
        usize::from(spot.offset),
        into,
    );
}

/// Writes the wires of a value, lowest first. Every other byte of the frames stays.
pub fn store<D: Driver>(driver: &D, wires: &[D::Wire], frames: &mut [Vec<u8>], spot: Spot)
    requires lies { Lies D.WIRE_BYTES (contents frames.old) spot (length wires.now) }
    ensures bank { bank_of (contents frames.new)
        ≡ with_wires D.rules (bank_of (contents frames.old)) spot wires.now }
    ensures lengths { lengths_of (contents frames.new) ≡ lengths_of (contents frames.old) }
{
    pack_each(
        driver,
        wires,
        &mut frames[usize::from(spot.frame)],
        usize::from(spot.offset),
    );
}
