// Files of the first version: the example of docs/FORMAT.md, one of a worker with two frames whose second page is written and
// read again, and one of two workers with a link between them. Their bytes and the faults of their changes are worked out by
// hand from the table of fields.
use super::*;
use mage_instr::{Directive, Job, Limits, MemProgram, Op, Spot};
use std::alloc::Global;
use std::test::Fail;

const EXAMPLE: [u8; 92] = [
    0x4d, 0x41, 0x47, 0x45, 0x4d, 0x50, 48, 49, 0, 1, 0, 0, 0, 0, 0, 64, 0, 0, 0, 1, 0, 0, 0, 0, 0,
    0, 0, 0, 0, 0, 0, 3, 64, 0, 0, 0, 0, 0, 0, 0, 0, 0, 0, 0, 0, 0, 0, 0, 0, 0, 0, 0, 0, 1, 0, 0,
    0, 0, 0, 0, 0, 0, 0, 0, 0, 0, 0, 0, 0, 0, 0, 0, 2, 1, 0, 0, 0, 0, 0, 0, 0, 0, 0, 0, 0, 0, 0, 0,
    0, 0, 0, 0,
];

const SWAPPED: [u8; 272] = [
    0x4d, 0x41, 0x47, 0x45, 0x4d, 0x50, 48, 49, 0, 1, 0, 0, 0, 0, 0, 64, 0, 0, 0, 2, 0, 0, 0, 1, 0,
    0, 0, 64, 0, 0, 0, 12, 64, 0, 0, 0, 0, 0, 0, 0, 0, 0, 0, 0, 0, 0, 0, 0, 0, 0, 0, 0, 0, 64, 0,
    0, 0, 0, 0, 0, 0, 0, 0, 0, 0, 0, 0, 0, 0, 0, 0, 0, 64, 0, 0, 0, 0, 1, 0, 0, 0, 0, 0, 1, 0, 0,
    0, 0, 0, 0, 0, 0, 0, 64, 0, 0, 0, 1, 0, 0, 0, 0, 0, 0, 0, 0, 0, 0, 0, 0, 0, 0, 0x43, 0, 0, 0,
    0, 1, 0, 0, 0, 0, 0, 1, 0, 0, 0, 0, 0, 0, 0, 0, 64, 0, 0, 0, 0, 1, 0, 0, 0, 0, 0, 2, 0, 0, 0,
    0, 0, 0, 0, 0, 0, 64, 0, 0, 0, 1, 0, 0, 0, 0, 0, 0, 0, 0, 0, 0, 0, 0, 0, 0, 2, 64, 0, 0, 0, 0,
    0, 0, 0, 0, 0, 0, 0, 0, 0, 0, 0, 0, 0, 0, 0x44, 0, 0, 0, 0, 0, 0, 0, 0, 0, 0, 0, 0, 0, 0, 0, 0,
    0, 0, 0, 0x41, 0, 0, 0, 0, 0, 0, 0, 0, 0, 0, 1, 0, 0, 0, 0, 0, 0, 0, 0, 0x42, 0, 0, 0, 0, 0, 0,
    0, 0, 0, 0, 0, 0, 0, 0, 0, 0, 0, 0, 0, 2, 64, 0, 0, 0, 0, 0, 0, 0, 0, 0, 0, 0, 0, 0, 0, 0, 0,
    0, 0,
];

const LINKED: [u8; 236] = [
    0x4d, 0x41, 0x47, 0x45, 0x4d, 0x50, 48, 49, 0, 2, 0, 0, 0, 0, 0, 64, 0, 0, 0, 1, 0, 0, 0, 1, 0,
    0, 0, 0, 0, 0, 0, 5, 64, 0, 0, 0, 0, 0, 0, 0, 0, 0, 0, 0, 0, 0, 0, 0, 0, 0, 0, 0, 0, 1, 0, 0,
    0, 0, 0, 0, 0, 0, 0, 0, 0, 0, 0, 0, 0, 0, 0, 0, 0x43, 0, 0, 0, 0, 0, 0, 0, 0, 0, 0, 4, 0, 0, 0,
    0, 0, 0, 0, 0, 0x44, 0, 0, 0, 0, 0, 0, 0, 0, 0, 0, 0, 0, 0, 0, 0, 0, 0, 0, 0, 16, 1, 0, 1, 0,
    0, 0, 0, 0, 0, 0, 0, 0, 0, 0, 0, 0, 0, 0, 0, 0, 0, 0, 5, 64, 0, 0, 0, 0, 0, 0, 0, 0, 0, 0, 0,
    0, 0, 0, 0, 0, 0, 0, 0, 17, 1, 0, 0, 0, 0, 0, 0, 0, 0, 0, 0, 0, 0, 0, 0, 0, 0, 0, 0, 0x41, 0,
    0, 0, 0, 0, 0, 0, 0, 0, 0, 6, 0, 0, 0, 0, 0, 0, 0, 0, 0x41, 0, 0, 0, 0, 0, 0, 0, 0, 0, 0, 2, 0,
    0, 0, 0, 0, 0, 0, 0, 2, 1, 0, 0, 0, 0, 0, 0, 0, 0, 0, 0, 0, 0, 0, 0, 0, 0, 0, 0,
];

// Where fields of the example begin that have a rule on their numbers, behind magic and version.
const RULED: [usize; 31] = [
    8, 10, 12, 16, 20, 24, 32, 33, 34, 38, 40, 44, 48, 52, 53, 54, 60, 62, 64, 66, 68, 70, 72, 73,
    74, 76, 78, 84, 86, 88, 90,
];

// The first wire of a frame.
fn start_of(frame: u16) -> Spot {
    Spot { frame, offset: 0 }
}

// An instruction whose result begins a frame, and whose arguments begin frame 0.
fn instruction(op: Op, width: u8, imm: u64, frame: u16) -> Directive {
    Directive::Do(Job {
        op,
        width,
        imm,
        out: start_of(frame),
        args: [start_of(0); 3],
    })
}

// The pages are made, and a, b and c come in from the garbler: a to frame 0, b to frame 1, and c to frame 1 once b is
// written. Then a goes out, b is read back to frame 0, and goes out.
fn swaps() -> [Directive; 12] {
    [
        Directive::Fresh { frame: 0, page: 0 },
        instruction(Op::Input, 64, 0, 0),
        Directive::Fresh { frame: 1, page: 1 },
        instruction(Op::Input, 64, 0, 1),
        Directive::IssueOut {
            slot: 0,
            frame: 1,
            page: 1,
        },
        Directive::Fresh { frame: 1, page: 2 },
        instruction(Op::Input, 64, 0, 1),
        instruction(Op::Output, 64, 0, 0),
        Directive::FinishOut { slot: 0 },
        Directive::IssueIn { slot: 0, page: 1 },
        Directive::FinishIn { slot: 0, frame: 0 },
        instruction(Op::Output, 64, 0, 0),
    ]
}

fn sends() -> [Directive; 5] {
    [
        Directive::Fresh { frame: 0, page: 0 },
        instruction(Op::Input, 1, 0, 0),
        Directive::IssueOut {
            slot: 0,
            frame: 0,
            page: 4,
        },
        Directive::FinishOut { slot: 0 },
        instruction(Op::Send, 1, 1, 0),
    ]
}

fn receives() -> [Directive; 5] {
    [
        Directive::Fresh { frame: 0, page: 0 },
        instruction(Op::Recv, 1, 0, 0),
        Directive::IssueIn { slot: 0, page: 6 },
        Directive::IssueIn { slot: 0, page: 2 },
        instruction(Op::Output, 1, 0, 0),
    ]
}

// What the reader of the first version says of the bytes.
fn answer(alloc: Global, bytes: &[u8]) -> Option<FileFault> {
    read_first(alloc, bytes).err()
}

// What a worker does.
fn part(program: &MemProgram, worker: usize) -> &[Directive] {
    match program.workers.as_slice().get(worker) {
        Some(part) => part.as_slice(),
        None => &[],
    }
}

// The example with one byte changed.
fn changed(at: usize, byte: u8) -> [u8; 92] {
    let mut bytes = EXAMPLE;
    if at < bytes.len() {
        bytes[at] = byte;
    }
    bytes
}

// The first byte of the field that a byte lies in.
fn field_of(at: usize) -> u64 {
    let mut field = 0;
    for start in RULED {
        if start <= at {
            field = start as u64;
        }
    }
    field
}

// What is wrong once each bit of the byte at this offset is turned. The low bytes of frames, slots, ahead, pages, frames and
// offsets may be anything; more directives than there are bytes for are missing at the end.
fn fault_at(at: usize) -> Option<FileFault> {
    match at {
        0..=5 => Some(FileFault::Magic),
        6..=7 => Some(FileFault::Version),
        18 | 19 | 23 | 26 | 27 | 36 | 37 | 42 | 43 | 56..=59 | 80..=83 => None,
        28..=31 => Some(FileFault::Short { at: 92 }),
        _ => Some(FileFault::Field { at: field_of(at) }),
    }
}

#[test]
fn reads_a_worker_that_swaps(rt: HostRuntime) -> Result<(), Fail> {
    let program = read_first(rt.alloc(), &SWAPPED)?;
    let limits = Limits {
        page: 64,
        frames: 2,
        buffer: 1,
        ahead: 64,
    };
    assert_eq!(rt; program.limits, limits);
    assert_eq!(rt; program.stores.as_slice(), [2].as_slice());
    assert_eq!(rt; program.workers.len(), 1);
    assert_eq!(rt; part(&program, 0), swaps().as_slice());
    Ok(())
}

#[test]
fn reads_two_workers_with_a_link(rt: HostRuntime) -> Result<(), Fail> {
    let program = read_first(rt.alloc(), &LINKED)?;
    assert_eq!(rt; program.stores.as_slice(), [5, 7].as_slice());
    assert_eq!(rt; program.workers.len(), 2);
    assert_eq!(rt; part(&program, 0), sends().as_slice());
    assert_eq!(rt; part(&program, 1), receives().as_slice());
    Ok(())
}

#[test]
fn no_page_is_stored_without_a_transfer(rt: HostRuntime) -> Result<(), Fail> {
    let program = read_first(rt.alloc(), &EXAMPLE)?;
    assert_eq!(rt; program.stores.as_slice(), [0].as_slice());
    Ok(())
}

#[test]
fn is_short_wherever_it_is_cut(rt: HostRuntime) {
    for length in 0..92 {
        let expected = Some(FileFault::Short { at: length as u64 });
        assert_eq!(rt; answer(rt.alloc(), &EXAMPLE[..length]), expected);
    }
}

#[test]
fn names_the_field_of_each_byte_that_is_changed(rt: HostRuntime) {
    for at in 0..92 {
        let bytes = changed(at, !EXAMPLE[at]);
        assert_eq!(rt; answer(rt.alloc(), &bytes), fault_at(at));
    }
}

// A byte behind the end; and each reader before the other version's file.
#[test]
fn names_what_is_too_much_and_the_other_version(rt: HostRuntime) -> Result<(), Fail> {
    let alloc = rt.alloc();
    let mut longer = EXAMPLE.to_vec(alloc)?;
    longer.push(0)?;
    assert_eq!(rt;
        answer(alloc, longer.as_slice()),
        Some(FileFault::Extra { at: 92 })
    );
    assert_eq!(rt; read(alloc, &EXAMPLE).err(), Some(FileFault::Version));
    assert_eq!(rt; answer(alloc, &changed(7, 0x32)), Some(FileFault::Version));
    assert_eq!(rt;
        answer(alloc, &crate::tests::BYTES),
        Some(FileFault::Version)
    );
    Ok(())
}
