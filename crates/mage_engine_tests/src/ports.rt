// Ports and links that fit a part.
ghost use Rattle.std.specs.Prelude.{IfOk};
ghost use Rattle.mage_base.specs.MemStore.{store_told};
ghost use Rattle.mage_link.specs.Queues.{queue_told};
ghost use Rattle.mage_log_store.specs.LogStore.{log_told};
ghost use Rattle.mage_store.specs.SealedPort as sealed;
ghost use Rattle.mage_store.specs.SerialPort as serial;
ghost use Rattle.mage_verify.specs.Parts.{WorkerPart};
ghost use Rattle.mage_verify.specs.Runs.{IsSafe};
ghost use Rattle.mage_engine.specs.Ready.{Serves, Connects};
ghost use Rattle.mage_engine_tests.specs.Slow.{slow_told};

use crate::SlowPort;
use mage_base::{MemStore, Memory};
use mage_link::QueueLink;
use mage_log_store::{Lie, LogStore};
use mage_store::{SealedPort, SerialPort};
use mage_verify::Part;
use std::alloc::Global;

/// A serial port for a part, over wires of one byte, and over a store in memory of whose calls these fail.
pub fn serial_for(alloc: Global, part: &Part, fails: &[u64]) -> Result<SerialPort<MemStore>, Memory>
    ensures { IfOk result (λ port. Serves 1 (serial.port_told store_told port) part.now) }
{
    let limits = part.limits();
    let store = MemStore::make(alloc, part.store_pages(), limits.page, fails)?;
    match SerialPort::make(alloc, limits.buffer, limits.page, store) {
        Ok(port) => Ok(port),
        Err((_, memory)) => Err(memory),
    }
}

/// The same, where each transfer is under way for so many asks.
pub fn slow_for(
    alloc: Global,
    part: &Part,
    asks: u32,
) -> Result<SlowPort<SerialPort<MemStore>>, Memory>
    ensures { IfOk result (λ port. Serves 1 (slow_told (serial.port_told store_told) port) part.now) }
{
    let port = serial_for(alloc, part, &[])?;
    Ok(SlowPort::over(port, asks))
}

// A serial port for a part, over a store that answers the reads falsely that these lies name.
fn lying_for(alloc: Global, part: &Part, lies: &[Lie]) -> Result<SerialPort<LogStore>, Memory>
    ensures { IfOk result (λ port. Serves 1 (serial.port_told log_told port) part.now) }
{
    let limits = part.limits();
    let store = LogStore::make(alloc, part.store_pages(), limits.page, 2, lies)?;
    match SerialPort::make(alloc, limits.buffer, limits.page, store) {
        Ok(port) => Ok(port),
        Err((_, memory)) => Err(memory),
    }
}

/// A sealed port for a part of one page at most, over a store that answers the reads falsely that these lies name. `Memory` too
/// for a part of more pages.
pub fn sealed_for(
    alloc: Global,
    part: &Part,
    lies: &[Lie],
) -> Result<SealedPort<SerialPort<LogStore>>, Memory>
    ensures { IfOk result (λ port. Serves 1
        (sealed.port_told (serial.port_told log_told) port) part.now) }
{
    let _directives = part.directives();
    if part.store_pages() > 1 {
        return Err(Memory);
    }
    let port = lying_for(alloc, part, lies)?;
    match SealedPort::make(alloc, &[0], port) {
        Ok(sealed) => Ok(sealed),
        Err((_, memory)) => Err(memory),
    }
}

/// Links with room for one wire each, between 16 workers, which every part may use.
pub fn linked(alloc: Global) -> Result<QueueLink, Memory>
    ensures { IfOk result (λ queues. (part : WorkerPart) → IsSafe part
        → Connects (queue_told queues) part) }
{
    QueueLink::make(alloc, 16, 1)
}
