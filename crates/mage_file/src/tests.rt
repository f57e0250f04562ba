// The file of one worker on pages of 64 wires, in one frame and without a slot: a page is made, a bit of the garbler goes to
// its first wire, and is handed out. Its bytes and the faults of its changes are worked out by hand from the table of fields.
use super::*;
use mage_instr::{Directive, Job, Limits, Op, Spot};
use std::alloc::Global;
use std::test::Fail;

pub const BYTES: [u8; 96] = [
    0x4d, 0x41, 0x47, 0x45, 0x4d, 0x50, 0x30, 0x32, 0, 1, 0, 0, 0, 0, 0, 64, 0, 0, 0, 1, 0, 0, 0,
    0, 0, 0, 0, 0, 0, 0, 0, 0, 0, 0, 0, 3, 0x40, 0, 0, 0, 0, 0, 0, 0, 0, 0, 0, 0, 0, 0, 0, 0, 0, 0,
    0, 0, 0, 1, 0, 0, 0, 0, 0, 0, 0, 0, 0, 0, 0, 0, 0, 0, 0, 0, 0, 0, 2, 1, 0, 0, 0, 0, 0, 0, 0, 0,
    0, 0, 0, 0, 0, 0, 0, 0, 0, 0,
];

// Where fields begin that have a rule on their numbers, behind magic and version.
const RULED: [usize; 32] = [
    8, 10, 12, 16, 20, 24, 28, 36, 37, 38, 42, 44, 48, 52, 56, 57, 58, 64, 66, 68, 70, 72, 74, 76,
    77, 78, 80, 82, 88, 90, 92, 94,
];

const SPOT: Spot = Spot {
    frame: 0,
    offset: 0,
};

fn job(op: Op) -> Directive {
    Directive::Do(Job {
        op,
        width: 1,
        imm: 0,
        out: SPOT,
        args: [SPOT, SPOT, SPOT],
    })
}

// What the reader says of the bytes.
fn answer(alloc: Global, bytes: &[u8]) -> Option<FileFault> {
    read(alloc, bytes).err()
}

// The example with one byte changed.
fn changed(at: usize, byte: u8) -> [u8; 96] {
    let mut bytes = BYTES;
    if at < bytes.len() {
        bytes[at] = byte;
    }
    bytes
}

// The first byte of the field that a byte lies in.
fn field_of(at: usize) -> u64 {
    let mut field = 0;
    for start in RULED {
        if start <= at {
            field = start as u64;
        }
    }
    field
}

// What is wrong once each bit of the byte at this offset is turned. The low bytes of frames, slots, ahead, pages, frames and
// offsets may be anything; more directives than there are bytes for are missing at the end.
fn fault_at(at: usize) -> Option<FileFault> {
    match at {
        0..=5 => Some(FileFault::Magic),
        6..=7 => Some(FileFault::Version),
        18 | 19 | 23 | 26 | 27 | 30 | 31 | 40 | 41 | 46 | 47 | 60..=63 | 84..=87 => None,
        32..=35 => Some(FileFault::Short { at: 96 }),
        _ => Some(FileFault::Field { at: field_of(at) }),
    }
}

#[test]
fn reads_the_example(rt: HostRuntime) -> Result<(), Fail> {
    let program = read(rt.alloc(), &BYTES)?;
    let limits = Limits {
        page: 64,
        frames: 1,
        buffer: 0,
        ahead: 0,
    };
    assert_eq!(rt; program.limits, limits);
    assert_eq!(rt; program.stores.as_slice(), [0].as_slice());
    assert_eq!(rt; program.workers.len(), 1);
    for part in program.workers.as_slice() {
        let expected = [
            Directive::Fresh { frame: 0, page: 0 },
            job(Op::Input),
            job(Op::Output),
        ];
        assert_eq!(rt; part.as_slice(), expected.as_slice());
    }
    Ok(())
}

#[test]
fn writes_what_it_read(rt: HostRuntime) -> Result<(), Fail> {
    let program = read(rt.alloc(), &BYTES)?;
    let written = write(rt.alloc(), &program)?;
    assert_eq!(rt; written.as_slice(), BYTES.as_slice());
    Ok(())
}

#[test]
fn is_short_wherever_it_is_cut(rt: HostRuntime) {
    for length in 0..96 {
        let expected = Some(FileFault::Short { at: length as u64 });
        assert_eq!(rt; answer(rt.alloc(), &BYTES[..length]), expected);
    }
}

#[test]
fn names_the_field_of_each_byte_that_is_changed(rt: HostRuntime) {
    for at in 0..96 {
        let bytes = changed(at, !BYTES[at]);
        assert_eq!(rt; answer(rt.alloc(), &bytes), fault_at(at));
    }
}

// Byte 37 and a byte behind the end; a page of 65 wires; the last opcode and the first number without one; 17 workers; and
// more store pages than 2,000,000.
#[test]
fn names_the_first_fault(rt: HostRuntime) -> Result<(), Fail> {
    let alloc = rt.alloc();
    let field = |at: u64| Some(FileFault::Field { at });
    assert_eq!(rt; answer(alloc, &changed(37, 1)), field(37));
    assert_eq!(rt; answer(alloc, &changed(15, 65)), field(12));
    assert_eq!(rt; answer(alloc, &changed(76, 22)), None);
    assert_eq!(rt; answer(alloc, &changed(76, 23)), field(76));
    assert_eq!(rt; answer(alloc, &changed(9, 17)), field(8));
    assert_eq!(rt; answer(alloc, &changed(29, 0x1f)), field(28));
    let mut longer = BYTES.to_vec(alloc)?;
    longer.push(0)?;
    assert_eq!(rt;
        answer(alloc, longer.as_slice()),
        Some(FileFault::Extra { at: 96 })
    );
    Ok(())
}
