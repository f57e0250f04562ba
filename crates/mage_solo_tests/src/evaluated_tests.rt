// Whole runs that evaluate: the values of streams that were garbled, and streams that are not what is due. The expected values are
// worked out by hand.
ghost use Rattle.std.specs.Prelude.{◌<◌, length};
ghost use Rattle.mage_verify.specs.Literals.{AreDirectives};

use crate::garbled_tests::{SUM, SWAPPED};
use crate::tests::{fault_of, outputs_of};
use crate::{Decoded, evaluate_alone, garble_alone};
use mage_base::{MemSink, MemSource};
use mage_core::RunFault;
use mage_instr::{Directive, DriverFault, Job, Op, Spot};
use mage_label::{Label, input_label, offset};
use std::alloc::Global;
use std::process::Abort;
use std::test::Fail;

const FIRST: Spot = Spot {
    frame: 0,
    offset: 0,
};

// A value of the evaluator of 8 bits, put out: its stream has a colour for each bit.
const SHOWN: [Directive; 3] = [
    Directive::Fresh { frame: 0, page: 0 },
    Directive::Do(Job {
        op: Op::Input,
        width: 8,
        imm: 1,
        out: FIRST,
        args: [FIRST, FIRST, FIRST],
    }),
    Directive::Do(Job {
        op: Op::Output,
        width: 8,
        imm: 0,
        out: FIRST,
        args: [FIRST, FIRST, FIRST],
    }),
];

// The active labels of the evaluator's value, whose wires follow 8 of the garbler's, under a seed of 32 zero bytes.
fn dealt(alloc: Global, value: u64) -> Result<Vec<Label>, Fail> {
    let seed = [0; 32];
    let mut labels = Vec::new(alloc);
    for i in 0..8u64 {
        let zero = input_label(&seed, 0, 8 + i);
        labels.push(if value >> i & 1 == 1 {
            zero.xor(offset(&seed))
        } else {
            zero
        })?;
    }
    Ok(labels)
}

// What the evaluator makes of a stream that was garbled.
fn evaluated(
    alloc: Global,
    directives: &[Directive],
    value: u64,
    sink: &MemSink,
) -> Result<Decoded, Fail>
    requires count { length directives.now < 100 }
    requires fields { AreDirectives 1 0 directives.now }
{
    let source = MemSource::make(alloc, sink.taken(), &[])?;
    let labels = dealt(alloc, value)?;
    Ok(evaluate_alone(alloc, directives, labels.as_slice(), source)?)
}

#[test]
fn the_value_of_a_sum(rt: HostRuntime) -> Result<(), Fail> {
    let sink = MemSink::make(rt.alloc(), 360, &[])?;
    let garbled = garble_alone(rt.alloc(), &SUM, &[200], sink)?;
    let ended = evaluated(rt.alloc(), &SUM, 100, &garbled.sink)?;
    assert_eq!(rt; fault_of(&ended.outcome), None);
    assert_eq!(rt; outputs_of(&ended.outcome), [44].as_slice());
    assert_eq!(rt; ended.source.left().len(), 0);
    Ok(())
}

// The garbler's second value is put out, and then the sum of its first one and the evaluator's, whose page moved.
#[test]
fn a_page_of_labels_goes_out_and_comes_in(rt: HostRuntime) -> Result<(), Fail> {
    let sink = MemSink::make(rt.alloc(), 496, &[])?;
    let garbled = garble_alone(rt.alloc(), &SWAPPED, &[1, 2], sink)?;
    let ended = evaluated(rt.alloc(), &SWAPPED, 9, &garbled.sink)?;
    assert_eq!(rt; fault_of(&ended.outcome), None);
    assert_eq!(rt; outputs_of(&ended.outcome), [2, 10].as_slice());
    Ok(())
}

// What comes of these colours, where the labels are zeros, so that a wire's bit is its colour.
fn shown(alloc: Global, stream: &[u8], fails: &[u64]) -> Result<Decoded, Fail> {
    let source = MemSource::make(alloc, stream, fails)?;
    let labels = [Label { bytes: [0; 16] }; 8];
    Ok(evaluate_alone(alloc, &SHOWN, &labels, source)?)
}

#[test]
fn colours_of_a_value(rt: HostRuntime) -> Result<(), Fail> {
    let ended = shown(rt.alloc(), &[1, 0, 1, 0, 0, 0, 0, 0], &[])?;
    assert_eq!(rt; outputs_of(&ended.outcome), [5].as_slice());
    Ok(())
}

// A stream, over a source that may fail, stops the run.
fn stops(
    rt: &impl Abort,
    alloc: Global,
    stream: &[u8],
    fails: &[u64],
    fault: DriverFault,
) -> Result<(), Fail> {
    let ended = shown(alloc, stream, fails)?;
    let stopped = RunFault::Driver { worker: 0, fault };
    assert_eq!(rt; fault_of(&ended.outcome), Some(stopped));
    Ok(())
}

// Of two faults the first one in the stream stops the run.
#[test]
fn streams_that_are_not_what_is_due(rt: HostRuntime) -> Result<(), Fail> {
    let alloc = rt.alloc();
    stops(
        &rt,
        alloc,
        &[1, 0, 1, 0, 0, 0, 0],
        &[],
        DriverFault::Short { at: 7 },
    )?;
    stops(
        &rt,
        alloc,
        &[1, 0, 2, 0, 0, 0, 0, 0],
        &[],
        DriverFault::Colour { at: 2 },
    )?;
    stops(
        &rt,
        alloc,
        &[1, 0, 2, 0],
        &[],
        DriverFault::Colour { at: 2 },
    )?;
    stops(
        &rt,
        alloc,
        &[1, 0, 1, 0, 0, 0, 0, 0, 0],
        &[],
        DriverFault::Long { at: 8 },
    )?;
    stops(
        &rt,
        alloc,
        &[1, 0, 1, 0, 0, 0, 0, 0],
        &[0],
        DriverFault::Source,
    )
}
