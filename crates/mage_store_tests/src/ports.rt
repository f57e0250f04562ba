// Ports over stores, as the tests make them, and what comes of a page.
ghost use Rattle.std.specs.Prelude.{◌≡◌, IfOk, length};
ghost use Rattle.mage_store.specs.SealedPort as sealed;
ghost use Rattle.mage_store.specs.SerialPort as serial;
ghost use Rattle.mage_store_tests.specs.Rest.{IsReady};

use crate::{Went, written_and_read};
use mage_base::{Memory, Store};
use mage_port::SwapPort;
use mage_store::{SealedPort, SerialPort};
use std::alloc::Global;

// A serial port of two slots over this store.
pub fn serial_over<S: Store + Drop>(
    alloc: Global,
    page_bytes: u32,
    store: S,
) -> Result<SerialPort<S>, Memory>
    requires { (S.tells store).page_bytes ≡ page_bytes }
    ensures port { IfOk result (λ port. port ≡ serial.new_serial store 2 page_bytes) }
    ensures ready { IfOk result (λ port. IsReady (serial.port_told S.tells port) page_bytes) }
{
    match SerialPort::make(alloc, 2, page_bytes, store) {
        Ok(port) => Ok(port),
        Err((_, memory)) => Err(memory),
    }
}

// A sealed port over such a port, which takes three pages.
pub fn sealed_over<S: Store + Drop>(
    alloc: Global,
    page_bytes: u32,
    store: S,
) -> Result<SealedPort<SerialPort<S>>, Memory>
    requires { (S.tells store).page_bytes ≡ page_bytes }
    ensures { IfOk result (λ port. IsReady
        (sealed.port_told (serial.port_told S.tells) port) page_bytes) }
{
    let port = serial_over(alloc, page_bytes, store)?;
    match SealedPort::make(alloc, &[0, 1, 2], port) {
        Ok(sealed) => Ok(sealed),
        Err((_, memory)) => Err(memory),
    }
}

// What comes of page 1, when these bytes are written to it and it is read, and what is then in the
// buffer for it.
pub fn went_through<P: SwapPort>(
    alloc: Global,
    port: &mut P,
    bytes: &[u8],
) -> Result<(Went, Vec<u8>), Memory>
    requires { IsReady (P.tells port.old) (length bytes.now) }
{
    let mut from = Vec::from_slice(alloc, bytes)?;
    let mut into = Vec::from_slice(alloc, bytes)?;
    into.fill(0);
    let went = written_and_read(port, 1, &mut from, &mut into);
    Ok((went, into))
}
