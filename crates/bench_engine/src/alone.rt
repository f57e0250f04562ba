// Instructions alone, on the same wires again and again.
ghost use Rattle.std.specs.Prelude.{◌≡◌, IsTrue};
ghost use Rattle.mage_instr.specs.Opcodes.{WidthOk};
ghost use Rattle.mage_driver.specs.declared.standing.Standing.TheVariants as standing;
ghost use Rattle.mage_circuit.specs.Results.{is_made};

use crate::failing::Trouble;
use mage_base::MemSink;
use mage_circuit::{Scratch, exec, is_made};
use mage_driver::Driver;
use mage_garble::GarbleDriver;
use mage_instr::{Op, width_ok};
use mage_plain::PlainDriver;
use std::alloc::Global;

/// So many instructions of 32 bits in plain.
pub fn plain_alone(alloc: Global, op: Op, count: u32) -> Result<u128, Trouble> {
    let mut driver = PlainDriver::make(alloc, Vec::new(alloc), Vec::new(alloc), 0)?;
    repeat(alloc, &mut driver, op, count)?;
    Ok(0)
}

/// The same garbled, with room for a stream of so many bytes.
pub fn garbled_alone(alloc: Global, op: Op, count: u32, room: u64) -> Result<u128, Trouble> {
    let sink = MemSink::make(alloc, room, &[])?;
    match GarbleDriver::make(alloc, [7; 32], 0, Vec::new(alloc), sink) {
        Ok(mut driver) => {
            let went = repeat(alloc, &mut driver, op, count);
            let _sink = driver.close();
            went.map(|()| 0)
        }
        Err(_) => Err(Trouble::Memory),
    }
}

fn repeat<D: Driver>(alloc: Global, driver: &mut D, op: Op, count: u32) -> Result<(), Trouble>
    requires { (D.tells driver.old).standing ≡ standing.Running }
{
    if !is_made(op) || !width_ok(op, 32, 0) {
        return Err(Trouble::Words);
    }
    let mut scratch = Scratch::make(alloc, driver)?;
    again(driver, op, count, &mut scratch)
}

// Makes an instruction so many times.
fn again<D: Driver>(
    driver: &mut D,
    op: Op,
    count: u32,
    scratch: &mut Scratch<D>,
) -> Result<(), Trouble>
    requires running { (D.tells driver.old).standing ≡ standing.Running }
    requires width { WidthOk op 32 0 }
    requires made { IsTrue (is_made op) }
{
    for _turn in 0..count {
        match exec(driver, op, 32, 0, scratch) {
            Ok(()) => {}
            Err(_) => return Err(Trouble::Machine),
        }
    }
    Ok(())
}
