// Whole runs that garble: which bytes each sink took, and what stopped them. The one digest is that of another program
// (tools/garbled_sum.py), and the lengths are worked out by hand.
use crate::{Given, Sinks, garble_alone, garble_pair};
use mage_base::MemSink;
use mage_core::RunFault;
use mage_instr::{Directive, DriverFault, Job, Op, Spot};
use sha2::{Digest, Sha256};
use std::alloc::Global;
use std::test::Fail;

macro_rules! at {
    ($frame:literal $offset:literal) => {
        Spot {
            frame: $frame,
            offset: $offset,
        }
    };
}

// An instruction of 8 bits.
macro_rules! eight {
    ($op:ident $imm:literal, $out:expr, $left:expr, $right:expr) => {
        Directive::Do(Job {
            op: Op::$op,
            width: 8,
            imm: $imm,
            out: $out,
            args: [$left, $right, at!(0 0)],
        })
    };
}

macro_rules! page {
    ($frame:literal $page:literal) => {
        Directive::Fresh {
            frame: $frame,
            page: $page,
        }
    };
}

// SHA-256 of the stream of the sum of 200 and 100, by the other program.
const STREAM: [u8; 32] = [
    0x77, 0x4b, 0x7c, 0x5f, 0xde, 0xff, 0xda, 0x73, 0xa9, 0x78, 0xf0, 0xc4, 0x49, 0x38, 0x73, 0xf0,
    0x99, 0x0f, 0x12, 0xa3, 0x51, 0x30, 0xfd, 0xd5, 0x46, 0xbd, 0x2c, 0x79, 0x1a, 0xfd, 0x15, 0x32,
];

// The sum of a value of each party, put out.
pub(crate) const SUM: [Directive; 5] = [
    page!(0 0),
    eight!(Input 0, at!(0 0), at!(0 0), at!(0 0)),
    eight!(Input 1, at!(0 8), at!(0 0), at!(0 0)),
    eight!(Add 0, at!(0 16), at!(0 0), at!(0 8)),
    eight!(Output 0, at!(0 0), at!(0 16), at!(0 0)),
];

#[test]
fn the_stream_of_a_sum(rt: HostRuntime) -> Result<(), Fail> {
    let sink = MemSink::make(rt.alloc(), 360, &[])?;
    let ended = garble_alone(rt.alloc(), &SUM, &[200], sink)?;
    assert_eq!(rt; ended.fault, None);
    assert_eq!(rt; ended.sink.taken().len(), 360);
    assert_eq!(rt; Sha256::digest(ended.sink.taken()), STREAM);
    Ok(())
}

// Two values of the garbler and one of the evaluator between them: the third is put out, and then the sum of the first two. The
// second stands on a page of its own, which is written and read again.
pub(crate) const SWAPPED: [Directive; 13] = [
    page!(0 0),
    eight!(Input 0, at!(0 0), at!(0 0), at!(0 0)),
    page!(1 1),
    eight!(Input 1, at!(1 0), at!(0 0), at!(0 0)),
    Directive::IssueOut {
        slot: 0,
        frame: 1,
        page: 0,
    },
    page!(1 2),
    eight!(Input 0, at!(1 0), at!(0 0), at!(0 0)),
    eight!(Output 0, at!(0 0), at!(1 0), at!(0 0)),
    Directive::FinishOut { slot: 0 },
    Directive::IssueIn { slot: 0, page: 0 },
    Directive::FinishIn { slot: 0, frame: 1 },
    eight!(Add 0, at!(0 8), at!(0 0), at!(1 0)),
    eight!(Output 0, at!(0 0), at!(0 8), at!(0 0)),
];

// The same on one page.
const UNMOVED: [Directive; 7] = [
    page!(0 0),
    eight!(Input 0, at!(0 0), at!(0 0), at!(0 0)),
    eight!(Input 1, at!(0 8), at!(0 0), at!(0 0)),
    eight!(Input 0, at!(0 16), at!(0 0), at!(0 0)),
    eight!(Output 0, at!(0 0), at!(0 16), at!(0 0)),
    eight!(Add 0, at!(0 24), at!(0 0), at!(0 8)),
    eight!(Output 0, at!(0 0), at!(0 24), at!(0 0)),
];

// Sinks with room for either stream: 16 labels of 16 bytes, the tables of 7 ANDs of 32, and 16 colours.
fn sinks(alloc: Global, first: &[u64], second: &[u64]) -> Result<Sinks, Fail> {
    Ok(Sinks {
        first: MemSink::make(alloc, 496, first)?,
        second: MemSink::make(alloc, 496, second)?,
    })
}

fn given() -> Given<'static> {
    Given {
        first: &[1, 2],
        second: &[3, 4],
    }
}

#[test]
fn pages_that_move_leave_the_streams_as_they_are(rt: HostRuntime) -> Result<(), Fail> {
    let moved = garble_pair(
        rt.alloc(),
        &SWAPPED,
        &SWAPPED,
        given(),
        sinks(rt.alloc(), &[], &[])?,
    )?;
    let kept = garble_pair(
        rt.alloc(),
        &UNMOVED,
        &UNMOVED,
        given(),
        sinks(rt.alloc(), &[], &[])?,
    )?;
    assert_eq!(rt; moved.fault, None);
    assert_eq!(rt; moved.sinks.first.taken().len(), 496);
    assert_eq!(rt; moved.sinks.first.taken(), kept.sinks.first.taken());
    assert_eq!(rt; moved.sinks.second.taken(), kept.sinks.second.taken());
    assert!(rt; moved.sinks.first.taken() != moved.sinks.second.taken());
    Ok(())
}

// What stopped a run whose sinks fail at these calls, and how many bytes each sink took.
fn broken(
    alloc: Global,
    first: &[u64],
    second: &[u64],
) -> Result<(Option<RunFault>, [usize; 2]), Fail> {
    let ended = garble_pair(
        alloc,
        &SWAPPED,
        &SWAPPED,
        given(),
        sinks(alloc, first, second)?,
    )?;
    let long = [
        ended.sinks.first.taken().len(),
        ended.sinks.second.taken().len(),
    ];
    Ok((ended.fault, long))
}

// Each worker puts its whole stream at its end, the first one first.
#[test]
fn a_sink_that_fails_stops_the_run(rt: HostRuntime) -> Result<(), Fail> {
    let (fault, long) = broken(rt.alloc(), &[], &[0])?;
    let by_second = RunFault::Driver {
        worker: 1,
        fault: DriverFault::Sink,
    };
    assert_eq!(rt; fault, Some(by_second));
    assert_eq!(rt; long, [496, 0]);
    let (fault, long) = broken(rt.alloc(), &[0], &[])?;
    let by_first = RunFault::Driver {
        worker: 0,
        fault: DriverFault::Sink,
    };
    assert_eq!(rt; fault, Some(by_first));
    assert_eq!(rt; long, [0, 0]);
    Ok(())
}
