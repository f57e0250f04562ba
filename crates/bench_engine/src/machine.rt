// A machine that goes through a part.
ghost use Rattle.std.specs.Prelude.{◌≡◌, ◌*◌, IfOk};
ghost use Rattle.mage_base.specs.MemStore.{store_told};
ghost use Rattle.mage_driver.specs.declared.standing.Standing.TheVariants as standing;
ghost use Rattle.mage_instr.specs.Limits.{AreInRange};
ghost use Rattle.mage_link.specs.Queues.{queue_told};
ghost use Rattle.mage_store.specs.SerialPort.{port_told};
ghost use Rattle.mage_verify.specs.Parts.{WorkerPart};
ghost use Rattle.mage_verify.specs.Runs.{IsSafe};
ghost use Rattle.mage_engine.specs.Ready.{Serves, Connects};

use crate::failing::Trouble;
use mage_base::{MemSink, MemStore};
use mage_driver::Driver;
use mage_engine::{Machine, Turn};
use mage_garble::GarbleDriver;
use mage_instr::Limits;
use mage_link::{LinkPort, QueueLink};
use mage_plain::PlainDriver;
use mage_port::SwapPort;
use mage_store::SerialPort;
use mage_verify::Part;
use std::alloc::Global;

/// The value that is put out in plain.
pub fn plain_machine(alloc: Global, part: Part) -> Result<u128, Trouble> {
    let _directives = part.directives();
    let port = serial_for::<PlainDriver>(alloc, &part)?;
    let link = linked(alloc)?;
    let driver = PlainDriver::make(alloc, Vec::new(alloc), Vec::new(alloc), 1)?;
    let (driver, went) = driven(alloc, part, driver, port, link);
    went?;
    driver.outputs().last().copied().ok_or(Trouble::Machine)
}

/// The same garbled, with room for a stream of so many bytes: 0.
pub fn garbled_machine(alloc: Global, part: Part, room: u64) -> Result<u128, Trouble> {
    let _directives = part.directives();
    let port = serial_for::<GarbleDriver<MemSink>>(alloc, &part)?;
    let link = linked(alloc)?;
    let sink = MemSink::make(alloc, room, &[])?;
    match GarbleDriver::make(alloc, [7; 32], 0, Vec::new(alloc), sink) {
        Ok(driver) => {
            let (driver, went) = driven(alloc, part, driver, port, link);
            let _sink = driver.close();
            went.map(|()| 0)
        }
        Err(_) => Err(Trouble::Memory),
    }
}

// A driver after all directives of a part, and whether it got there.
fn driven<D: Driver>(
    alloc: Global,
    part: Part,
    driver: D,
    port: SerialPort<MemStore>,
    link: QueueLink,
) -> (D, Result<(), Trouble>)
    requires running { (D.tells driver).standing ≡ standing.Running }
    requires port { Serves D.WIRE_BYTES (port_told store_told port) part }
    requires link { Connects (queue_told link) part }
{
    let turns = part.directives().len() as u64 + 2;
    let mut link = link;
    match Machine::make(alloc, part, driver, port) {
        Ok(machine) => {
            let mut machine = machine;
            let went = to_its_end(&mut machine, &mut link, turns);
            (machine.close().0, went)
        }
        Err((_, driver, _, _)) => (driver, Err(Trouble::Memory)),
    }
}

// A serial port for a part over a store in memory.
fn serial_for<D: Driver>(alloc: Global, part: &Part) -> Result<SerialPort<MemStore>, Trouble>
    ensures { IfOk result (λ port. Serves D.WIRE_BYTES (port_told store_told port) part.now) }
{
    let _directives = part.directives();
    let limits = part.limits();
    let bytes = page_bytes::<D>(limits);
    let store = MemStore::make(alloc, part.store_pages(), bytes, &[])?;
    match SerialPort::make(alloc, limits.buffer, bytes, store) {
        Ok(port) => Ok(port),
        Err(_) => Err(Trouble::Memory),
    }
}

// How many bytes a page takes.
fn page_bytes<D: Driver>(limits: Limits) -> u32
    requires { AreInRange limits }
    ensures { result ≡ limits.page * D.WIRE_BYTES }
{
    limits.page * D::WIRE_BYTES
}

// Links between 16 workers.
fn linked(alloc: Global) -> Result<QueueLink, Trouble>
    ensures { IfOk result (λ queues. (part : WorkerPart) → IsSafe part
        → Connects (queue_told queues) part) }
{
    Ok(QueueLink::make(alloc, 16, 1)?)
}

// Steps a machine until it has ended, at most so many times.
fn to_its_end<D: Driver, P: SwapPort, L: LinkPort>(
    machine: &mut Machine<D, P>,
    link: &mut L,
    turns: u64,
) -> Result<(), Trouble>
    requires { Connects (L.tells link.old) machine.old.part }
{
    for _turn in 0..turns {
        match machine.step(link) {
            Ok(Turn::Ended) => return Ok(()),
            Ok(Turn::Moved(_)) => {}
            Ok(Turn::Blocked(_)) => return Err(Trouble::Machine),
            Err(_) => return Err(Trouble::Machine),
        }
    }
    Err(Trouble::Machine)
}
