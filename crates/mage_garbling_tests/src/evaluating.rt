// The value of the sum of 200 and 100, from its stream and the labels that are dealt.
ghost use Rattle.std.specs.Prelude.{◌<◌};

use crate::dealt::dealt;
use crate::garbling::garbled;
use crate::quiet::QuietSource;
use crate::sum::run;
use mage_base::{MemSource, Source};
use mage_eval::EvalDriver;
use mage_instr::DriverFault;
use sha2::{Digest, Sha256};
use std::alloc::Global;
use std::process::Abort;
use std::test::Fail;

// SHA-256 of the dealt labels, by the other program.
const LABELS: [u8; 32] = [
    0xeb, 0x22, 0xc1, 0x0e, 0xe7, 0x50, 0x1b, 0x90, 0x85, 0x6b, 0x88, 0xbb, 0x83, 0x25, 0x0a, 0xf1,
    0xc0, 0x1f, 0x4b, 0x73, 0x85, 0x00, 0xde, 0x8d, 0xe8, 0xe4, 0x37, 0x9d, 0x46, 0x4e, 0x93, 0xed,
];

// What the evaluator makes of a stream.
fn evaluated(alloc: Global, stream: &[u8]) -> Result<(Result<(), DriverFault>, Vec<u128>), Fail> {
    evaluated_from(alloc, MemSource::make(alloc, stream, &[])?)
}

// The same, of any source.
fn evaluated_from<R: Source + Drop>(
    alloc: Global,
    source: R,
) -> Result<(Result<(), DriverFault>, Vec<u128>), Fail> {
    match EvalDriver::make(alloc, 0, dealt(alloc)?, 4, source) {
        Ok(mut driver) => {
            let result = run(&mut driver);
            let (_, outputs) = driver.close();
            Ok((result, outputs))
        }
        Err((_, memory)) => Err(memory.into()),
    }
}

// The stream, cut to a length and with one byte changed, is refused.
fn refused(rt: &impl Abort, alloc: Global, stream: &[u8], fault: DriverFault) -> Result<(), Fail> {
    let (result, outputs) = evaluated(alloc, stream)?;
    assert_eq!(rt; result, Err(fault));
    let kept = if let DriverFault::Long { at: _ } = fault {
        1
    } else {
        0
    };
    assert_eq!(rt; outputs.len(), kept);
    Ok(())
}

#[test]
fn the_dealt_labels_of_another_program(rt: HostRuntime) -> Result<(), Fail> {
    let mut bytes = Vec::new(rt.alloc());
    for label in &dealt(rt.alloc())? {
        bytes.extend_from_slice(&label.bytes)?;
    }
    assert_eq!(rt; bytes.len(), 128);
    assert_eq!(rt; Sha256::digest(bytes.as_slice()), LABELS);
    Ok(())
}

#[test]
fn the_value(rt: HostRuntime) -> Result<(), Fail> {
    let (_, sink) = garbled(rt.alloc(), &[])?;
    let (result, outputs) = evaluated(rt.alloc(), sink.taken())?;
    assert!(rt; result.is_ok());
    assert_eq!(rt; outputs.as_slice(), [44].as_slice());
    Ok(())
}

// The front of a stream is refused where it ends.
fn cut(rt: &impl Abort, alloc: Global, stream: &[u8], count: usize) -> Result<(), Fail> {
    let front = &stream[..count.min(stream.len())];
    refused(rt, alloc, front, DriverFault::Short { at: count as u64 })
}

// A stream with another byte at a place is refused there.
fn discoloured(
    rt: &impl Abort,
    alloc: Global,
    stream: &mut [u8],
    place: usize,
) -> Result<(), Fail> {
    if place < stream.len() {
        stream[place] = 2;
    }
    refused(rt, alloc, stream, DriverFault::Colour { at: place as u64 })
}

#[test]
fn streams_that_are_not_what_is_due(rt: HostRuntime) -> Result<(), Fail> {
    let alloc = rt.alloc();
    let (_, sink) = garbled(alloc, &[])?;
    cut(&rt, alloc, sink.taken(), 359)?;
    cut(&rt, alloc, sink.taken(), 130)?;
    let mut stream = Vec::from_slice(alloc, sink.taken())?;
    stream.push(0)?;
    refused(&rt, alloc, stream.as_slice(), DriverFault::Long { at: 360 })?;
    discoloured(&rt, alloc, stream.as_mut_slice(), 352)
}

#[test]
fn a_source_that_tells_nothing(rt: HostRuntime) -> Result<(), Fail> {
    let (_, sink) = garbled(rt.alloc(), &[])?;
    let source = MemSource::make(rt.alloc(), sink.taken(), &[])?;
    let (result, outputs) = evaluated_from(rt.alloc(), QuietSource { source })?;
    assert!(rt; result.is_ok());
    assert_eq!(rt; outputs.as_slice(), [44].as_slice());
    Ok(())
}

#[test]
fn a_source_that_tells_nothing_ends_early(rt: HostRuntime) -> Result<(), Fail> {
    let (_, sink) = garbled(rt.alloc(), &[])?;
    let source = MemSource::make(
        rt.alloc(),
        &sink.taken()[..sink.taken().len().min(359)],
        &[],
    )?;
    let (result, outputs) = evaluated_from(rt.alloc(), QuietSource { source })?;
    assert_eq!(rt; result, Err(DriverFault::Short { at: 359 }));
    assert_eq!(rt; outputs.len(), 0);
    Ok(())
}
