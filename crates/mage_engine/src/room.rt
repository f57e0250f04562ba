// The memory of a machine.
ghost use Rattle.std.specs.Prelude.{◌≡◌, ◌*◌, length, replicate, IfOk};
ghost use Rattle.mage_instr.specs.Limits.{AreInRange};
ghost use Rattle.mage_driver.specs.declared.standing.Standing.TheVariants as standing;
ghost use Rattle.mage_bank.specs.Bank.{contents};

use mage_base::Memory;
use mage_circuit::Scratch;
use mage_driver::Driver;
use mage_instr::Limits;
use std::alloc::Global;

// Frames, room for the wires of one instruction, and a page that the end of a write may use.
#[derive(Drop)]
pub(crate) struct Room<D: Driver> {
    pub(crate) frames: Vec<Vec<u8>>,
    pub(crate) scratch: Scratch<D>,
    pub(crate) spare: Vec<u8>,
}

// All the memory of a machine within these limits.
pub(crate) fn room_for<D: Driver>(
    alloc: Global,
    limits: Limits,
    driver: &D,
) -> Result<Room<D>, Memory>
    requires running { (D.tells driver.now).standing ≡ standing.Running }
    requires limits { AreInRange limits }
    ensures frames { IfOk result (λ room. contents room.frames.items
        ≡ replicate limits.frames (replicate (limits.page * D.WIRE_BYTES) 0)) }
    ensures spare { IfOk result (λ room. length room.spare.items ≡ limits.page * D.WIRE_BYTES) }
{
    let bytes = limits.page * D::WIRE_BYTES;
    Ok(Room {
        frames: mage_bank::frames(alloc, limits.frames, bytes)?,
        scratch: Scratch::make(alloc, driver)?,
        spare: vec![in alloc; 0; bytes as usize]?,
    })
}
