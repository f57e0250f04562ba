// Programs made by the circuits of their instructions: how long their streams are, and what is decoded from these.
use crate::dealt::dealt;
use crate::steps::{Step, run_steps};
use mage_base::{MemSink, MemSource};
use mage_eval::EvalDriver;
use mage_garble::GarbleDriver;
use mage_instr::{DriverFault, Op};
use mage_label::Label;
use sha2::{Digest, Sha256};
use std::alloc::Global;
use std::process::Abort;
use std::test::Fail;

// SHA-256 of the stream of the sum of 200 and 100, by another program.
const SUM: [u8; 32] = [
    0x77, 0x4b, 0x7c, 0x5f, 0xde, 0xff, 0xda, 0x73, 0xa9, 0x78, 0xf0, 0xc4, 0x49, 0x38, 0x73, 0xf0,
    0x99, 0x0f, 0x12, 0xa3, 0x51, 0x30, 0xfd, 0xd5, 0x46, 0xbd, 0x2c, 0x79, 0x1a, 0xfd, 0x15, 0x32,
];

// What the garbler made of a program, and its sink, which has room for so many bytes.
fn garbled(
    alloc: Global,
    steps: &[Step],
    values: &[u128],
    room: u64,
) -> Result<(Result<(), DriverFault>, MemSink), Fail> {
    let sink = MemSink::make(alloc, room, &[])?;
    match GarbleDriver::make(alloc, [0; 32], 0, Vec::from_slice(alloc, values)?, sink) {
        Ok(mut driver) => {
            let result = run_steps(alloc, &mut driver, steps);
            let sink = driver.close();
            Ok((result?, sink))
        }
        Err((_, memory)) => Err(memory.into()),
    }
}

// What the evaluator makes of its stream.
fn evaluated(
    alloc: Global,
    steps: &[Step],
    labels: Vec<Label>,
    stream: &[u8],
) -> Result<(Result<(), DriverFault>, Vec<u128>), Fail> {
    let source = MemSource::make(alloc, stream, &[])?;
    match EvalDriver::make(alloc, 0, labels, 8, source) {
        Ok(mut driver) => {
            let result = run_steps(alloc, &mut driver, steps);
            let (_, outputs) = driver.close();
            Ok((result?, outputs))
        }
        Err((_, memory)) => Err(memory.into()),
    }
}

// A program's stream has so many bytes, and these values are decoded from it.
fn gives(
    rt: &impl Abort,
    alloc: Global,
    steps: &[Step],
    values: &[u128],
    labels: Vec<Label>,
    bytes: usize,
    outputs: &[u128],
) -> Result<(), Fail> {
    let (said, sink) = garbled(alloc, steps, values, 16_384)?;
    assert!(rt; said.is_ok());
    assert_eq!(rt; sink.taken().len(), bytes);
    let (read, decoded) = evaluated(alloc, steps, labels, sink.taken())?;
    assert!(rt; read.is_ok());
    assert_eq!(rt; decoded.as_slice(), outputs);
    Ok(())
}

// An input of each party, of 8 bits, and what an instruction gives of both.
fn of_both(op: Op) -> [Step; 4] {
    [
        (Op::Input, 8, 0, 0, 0, 0),
        (Op::Input, 8, 1, 8, 0, 0),
        (op, 8, 0, 16, 0, 8),
        (Op::Output, 8, 0, 0, 16, 0),
    ]
}

// Two inputs of the garbler, and a comparison of them.
fn compared(op: Op, width: u8) -> [Step; 4] {
    [
        (Op::Input, width, 0, 0, 0, 0),
        (Op::Input, width, 0, 64, 0, 0),
        (op, width, 0, 128, 0, 64),
        (Op::Output, 1, 0, 0, 128, 0),
    ]
}

// 8 labels, 7 ANDs and 8 colours, by `exec`: the bytes of the other program.
#[test]
fn the_sum_by_its_circuit(rt: HostRuntime) -> Result<(), Fail> {
    let alloc = rt.alloc();
    let steps = of_both(Op::Add);
    gives(&rt, alloc, &steps, &[200], dealt(alloc)?, 360, &[44])?;
    let (_, sink) = garbled(alloc, &steps, &[200], 360)?;
    assert_eq!(rt; Sha256::digest(sink.taken()), SUM);
    Ok(())
}

// 8 labels, 57 ANDs with 1,824 bytes of tables, and 8 colours.
#[test]
fn a_product(rt: HostRuntime) -> Result<(), Fail> {
    let alloc = rt.alloc();
    let bytes = 128 + 1_824 + 8;
    gives(
        &rt,
        alloc,
        &of_both(Op::Mul),
        &[200],
        dealt(alloc)?,
        bytes,
        &[32],
    )
}

#[test]
fn equality_of_bits_has_no_table(rt: HostRuntime) -> Result<(), Fail> {
    let alloc = rt.alloc();
    let steps = compared(Op::Eq, 1);
    gives(&rt, alloc, &steps, &[1, 1], Vec::new(alloc), 33, &[1])?;
    gives(&rt, alloc, &steps, &[1, 0], Vec::new(alloc), 33, &[0])
}

#[test]
fn order_of_the_greatest_numbers(rt: HostRuntime) -> Result<(), Fail> {
    let alloc = rt.alloc();
    let greatest = 18_446_744_073_709_551_615;
    gives(
        &rt,
        alloc,
        &compared(Op::Lt, 64),
        &[greatest, greatest],
        Vec::new(alloc),
        4_097,
        &[0],
    )
}

// The sum of the squares of four numbers, of 8 bits; whether it is less than the last of them; and the sum without its
// lowest two bits, of which the lowest is turned: 32 labels, 271 ANDs and 17 colours.
const SQUARES: [Step; 21] = [
    (Op::Input, 8, 0, 0, 0, 0),
    (Op::Input, 8, 0, 8, 0, 0),
    (Op::Input, 8, 0, 16, 0, 0),
    (Op::Input, 8, 0, 24, 0, 0),
    (Op::Const, 8, 0, 32, 0, 0),
    (Op::Mul, 8, 0, 40, 0, 0),
    (Op::Add, 8, 0, 32, 32, 40),
    (Op::Mul, 8, 0, 40, 8, 8),
    (Op::Add, 8, 0, 32, 32, 40),
    (Op::Mul, 8, 0, 40, 16, 16),
    (Op::Add, 8, 0, 32, 32, 40),
    (Op::Mul, 8, 0, 40, 24, 24),
    (Op::Add, 8, 0, 32, 32, 40),
    (Op::Output, 8, 0, 0, 32, 0),
    (Op::Lt, 8, 0, 48, 32, 24),
    (Op::Output, 1, 0, 0, 48, 0),
    (Op::Shr, 8, 2, 56, 32, 0),
    (Op::Eq, 8, 0, 64, 32, 32),
    (Op::Resize, 8, 1, 72, 64, 0),
    (Op::Xor, 8, 0, 80, 56, 72),
    (Op::Output, 8, 0, 0, 80, 0),
];

#[test]
fn a_sum_of_squares(rt: HostRuntime) -> Result<(), Fail> {
    let alloc = rt.alloc();
    gives(
        &rt,
        alloc,
        &SQUARES,
        &[1, 2, 3, 200],
        Vec::new(alloc),
        9_201,
        &[78, 1, 18],
    )
}

// Quotient, remainder, the lesser, the greater, and how many bits are 1: 16 labels, 317 ANDs and 40 colours.
const QUOTIENTS: [Step; 12] = [
    (Op::Input, 8, 0, 0, 0, 0),
    (Op::Input, 8, 0, 8, 0, 0),
    (Op::Div, 8, 0, 16, 0, 8),
    (Op::Output, 8, 0, 0, 16, 0),
    (Op::Rem, 8, 0, 16, 0, 8),
    (Op::Output, 8, 0, 0, 16, 0),
    (Op::Min, 8, 0, 16, 0, 8),
    (Op::Output, 8, 0, 0, 16, 0),
    (Op::Max, 8, 0, 16, 0, 8),
    (Op::Output, 8, 0, 0, 16, 0),
    (Op::Count, 8, 0, 16, 0, 0),
    (Op::Output, 8, 0, 0, 16, 0),
];

#[test]
fn quotients_and_counts(rt: HostRuntime) -> Result<(), Fail> {
    let alloc = rt.alloc();
    gives(
        &rt,
        alloc,
        &QUOTIENTS,
        &[200, 7],
        Vec::new(alloc),
        10_440,
        &[28, 4, 7, 200, 3],
    )?;
    gives(
        &rt,
        alloc,
        &QUOTIENTS,
        &[200, 0],
        Vec::new(alloc),
        10_440,
        &[255, 200, 0, 200, 3],
    )
}
