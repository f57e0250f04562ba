// Instructions that are done over two frames of 64 wires, of one byte each.
ghost use Rattle.std.specs.Prelude.{◌≡◌, ◌≤◌, ◌+◌, IsTrue, OnOk};
ghost use Rattle.mage_instr.specs.Opcodes.{WidthOk};
ghost use Rattle.mage_driver.specs.declared.standing.Standing.TheVariants as standing;
ghost use Rattle.mage_circuit.specs.Results.{is_made};
ghost use Rattle.mage_bank.specs.Bank.{contents, AreOf};
ghost use Rattle.mage_bank.specs.Jobs.{Fits};
ghost use Rattle.mage_bank_tests.specs.Fitting.{ResultFits, ArgFits};

use crate::fits::{can_be_done, fits};
use mage_bank::{clear, compute, frames, receive, send};
use mage_base::Memory;
use mage_circuit::{Scratch, TallyDriver};
use mage_driver::Driver;
use mage_instr::{DriverFault, Job, Spot};
use mage_plain::PlainDriver;
use std::alloc::Global;

/// What some instructions leave in the frames, and what they put out, in plain; the garbler's one value is 77. `Memory` too
/// where one of them can't be done.
pub fn done(alloc: Global, jobs: &[Job]) -> Result<(Vec<Vec<u8>>, PlainDriver), Memory> {
    let garbler = vec![in alloc; 77; 1]?;
    let mut driver = PlainDriver::make(alloc, garbler, Vec::new(alloc), 4)?;
    let mut scratch = Scratch::make(alloc, &driver)?;
    let mut bank = frames(alloc, 2, 64)?;
    for job in jobs {
        if !is_done(&mut driver, *job, bank.as_mut_slice(), &mut scratch) {
            return Err(Memory);
        }
    }
    Ok((bank, driver))
}

/// What an instruction leaves in the frames over a driver that answers Ok to so many calls, and its fault, if any. `Memory`
/// too where it can't be done.
pub fn stopped(
    alloc: Global,
    job: Job,
    last: u64,
) -> Result<(Vec<Vec<u8>>, Option<DriverFault>), Memory> {
    let mut driver = TallyDriver::make(last);
    let mut scratch = Scratch::make(alloc, &driver)?;
    let mut bank = frames(alloc, 2, 64)?;
    if !can_be_done(job) {
        return Err(Memory);
    }
    let fault = made(&mut driver, job, bank.as_mut_slice(), &mut scratch).err();
    Ok((bank, fault))
}

/// What is sent of a wire of a value after these bytes came for it, and once its frame was cleared. `Memory` too where the
/// wire doesn't lie within the frames.
pub fn sent(
    alloc: Global,
    bytes: &[u8; 16],
    spot: Spot,
    wire: u8,
) -> Result<([u8; 16], [u8; 16]), Memory> {
    let driver = PlainDriver::make(alloc, Vec::new(alloc), Vec::new(alloc), 0)?;
    let mut bank = frames(alloc, 2, 64)?;
    if !fits(spot, u64::from(wire) + 1) {
        return Err(Memory);
    }
    let first = sent_back(&driver, bytes, bank.as_mut_slice(), spot, wire);
    let cleared = sent_when_cleared(&driver, bank.as_mut_slice(), spot, wire);
    Ok((first, cleared))
}

// What is sent of a wire after these bytes came for it.
fn sent_back(
    driver: &PlainDriver,
    bytes: &[u8; 16],
    bank: &mut [Vec<u8>],
    spot: Spot,
    wire: u8,
) -> [u8; 16]
    requires bank { AreOf 2 64 (contents bank.old) }
    requires fits { Fits 2 64 (wire + 1) spot }
    ensures bank { AreOf 2 64 (contents bank.new) }
{
    receive(driver, bytes, bank, spot, wire);
    send(driver, bank, spot, wire)
}

// What is sent of a wire once its frame was cleared.
fn sent_when_cleared(driver: &PlainDriver, bank: &mut [Vec<u8>], spot: Spot, wire: u8) -> [u8; 16]
    requires bank { AreOf 2 64 (contents bank.old) }
    requires fits { Fits 2 64 (wire + 1) spot }
{
    clear(bank, spot.frame);
    send(driver, bank, spot, wire)
}

// Does an instruction in plain, if it can be done.
fn is_done(
    driver: &mut PlainDriver,
    job: Job,
    bank: &mut [Vec<u8>],
    scratch: &mut Scratch<PlainDriver>,
) -> bool
    requires running { driver.old.standing ≡ standing.Running }
    requires bank { AreOf 2 64 (contents bank.old) }
    ensures running { IsTrue result → driver.new.standing ≡ standing.Running }
    ensures bank { AreOf 2 64 (contents bank.new) }
{
    can_be_done(job) && made(driver, job, bank, scratch).is_ok()
}

// Does an instruction over a driver whose wires take a byte each.
fn made<D: Driver>(
    driver: &mut D,
    job: Job,
    bank: &mut [Vec<u8>],
    scratch: &mut Scratch<D>,
) -> Result<(), DriverFault>
    requires running { (D.tells driver.old).standing ≡ standing.Running }
    requires size { D.WIRE_BYTES ≡ 1 }
    requires bank { AreOf 2 64 (contents bank.old) }
    requires made { IsTrue (is_made job.op) }
    requires width { WidthOk job.op job.width job.imm }
    requires result { ResultFits job }
    requires first { ArgFits job 0 }
    requires second { ArgFits job 1 }
    requires third { ArgFits job 2 }
    ensures running { OnOk result ((D.tells driver.new).standing ≡ standing.Running) }
    ensures bank { AreOf 2 64 (contents bank.new) }
{
    compute(driver, &job, bank, scratch)?;
    Ok(())
}
