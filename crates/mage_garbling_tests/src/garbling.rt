// The stream of the sum of 200 and 100.
use crate::quiet::QuietSink;
use crate::sum::run;
use mage_base::{MemSink, Sink};
use mage_garble::GarbleDriver;
use mage_instr::DriverFault;
use sha2::{Digest, Sha256};
use std::alloc::Global;
use std::test::Fail;

// SHA-256 of the stream, by the other program.
const STREAM: [u8; 32] = [
    0x77, 0x4b, 0x7c, 0x5f, 0xde, 0xff, 0xda, 0x73, 0xa9, 0x78, 0xf0, 0xc4, 0x49, 0x38, 0x73, 0xf0,
    0x99, 0x0f, 0x12, 0xa3, 0x51, 0x30, 0xfd, 0xd5, 0x46, 0xbd, 0x2c, 0x79, 0x1a, 0xfd, 0x15, 0x32,
];

/// What the garbler made of the sum, and what is in the sink.
pub fn garbled(alloc: Global, fails: &[u64]) -> Result<(Result<(), DriverFault>, MemSink), Fail> {
    garbled_into(alloc, MemSink::make(alloc, 360, fails)?)
}

// The same, over any sink.
fn garbled_into<K: Sink + Drop>(
    alloc: Global,
    sink: K,
) -> Result<(Result<(), DriverFault>, K), Fail> {
    let mut values = Vec::new(alloc);
    values.push(200)?;
    match GarbleDriver::make(alloc, [0; 32], 0, values, sink) {
        Ok(mut driver) => {
            let result = run(&mut driver);
            Ok((result, driver.close()))
        }
        Err((_, memory)) => Err(memory.into()),
    }
}

#[test]
fn the_bytes_of_another_program(rt: HostRuntime) -> Result<(), Fail> {
    let (result, sink) = garbled(rt.alloc(), &[])?;
    assert!(rt; result.is_ok());
    assert_eq!(rt; sink.taken().len(), 360);
    assert_eq!(rt; Sha256::digest(sink.taken()), STREAM);
    Ok(())
}

#[test]
fn a_sink_that_fails(rt: HostRuntime) -> Result<(), Fail> {
    let (result, sink) = garbled(rt.alloc(), &[0])?;
    assert_eq!(rt; result, Err(DriverFault::Sink));
    assert_eq!(rt; sink.taken().len(), 0);
    Ok(())
}

#[test]
fn a_sink_that_tells_nothing(rt: HostRuntime) -> Result<(), Fail> {
    let sink = MemSink::make(rt.alloc(), 360, &[])?;
    let (result, quiet) = garbled_into(rt.alloc(), QuietSink { sink })?;
    assert!(rt; result.is_ok());
    assert_eq!(rt; Sha256::digest(quiet.sink.taken()), STREAM);
    Ok(())
}

#[test]
fn a_sink_that_tells_nothing_fails(rt: HostRuntime) -> Result<(), Fail> {
    let sink = MemSink::make(rt.alloc(), 360, &[0])?;
    let (result, quiet) = garbled_into(rt.alloc(), QuietSink { sink })?;
    assert_eq!(rt; result, Err(DriverFault::Sink));
    assert_eq!(rt; quiet.sink.taken().len(), 0);
    Ok(())
}
