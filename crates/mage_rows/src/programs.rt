// `plan` and `check`: memory programs that are written, read and checked. The bytes of each file are put together by hand from
// docs/FORMAT.md.
use crate::cases::{Row, comes_to, desk_with, words_of};
use mage_base::{Desk, DeskFails, MemDesk, Memory};
use mage_planner::Status;
use std::alloc::Global;
use std::process::Abort;
use std::test::Fail;

const PLAN: &str = "plan --source s --out p --page 64 --frames 1 --buffer 0 --ahead 0";

const CHECK: &str = "check --source s --program p";

// A bit that is said.
const BIT: &[u8] = b"input garbler a: u1; output a;";

// The same bit, turned round.
const NOT: &[u8] = b"input garbler a: u1; output !a;";

// Three values of a page each, of which the first two are said.
const THREE: &[u8] = b"input garbler a: u64; input garbler b: u64; input garbler c: u64; \
                       output a; output b;";

// The fields in front of the directives: one worker, one frame of 64 wires, no slot; no store page, three directives.
const FRONT: [u8; 36] = [
    0x4d, 0x41, 0x47, 0x45, 0x4d, 0x50, 0x30, 0x32, 0, 1, 0, 0, 0, 0, 0, 64, 0, 0, 0, 1, 0, 0, 0,
    0, 0, 0, 0, 0, 0, 0, 0, 0, 0, 0, 0, 3,
];

// A directive of which just the first two bytes aren't zero.
fn put_short(file: &mut Vec<u8>, code: u8, width: u8) -> Result<(), Memory> {
    file.push(code)?;
    file.push(width)?;
    file.extend_from_slice(&[0; 18])?;
    Ok(())
}

// The file of the bit: page 0 comes in new, the bit is put in, and said.
fn bit_file(alloc: Global) -> Result<Vec<u8>, Memory> {
    let mut file = Vec::new(alloc);
    file.extend_from_slice(&FRONT)?;
    put_short(&mut file, 0x40, 0)?;
    put_short(&mut file, 0, 1)?;
    put_short(&mut file, 2, 1)?;
    Ok(file)
}

fn row_of(
    words: &'static str,
    status: Status,
    said: &'static [u8],
    warned: &'static [u8],
) -> Row<'static> {
    Row {
        words,
        source: b"",
        garbler: b"",
        evaluator: b"",
        status,
        said,
        warned,
    }
}

// The bytes of a file; none where there is no such file.
fn file_of(alloc: Global, desk: &mut MemDesk, name: &str) -> Option<Vec<u8>> {
    desk.fetch(alloc, name, 100_000).ok()
}

// Whether a file has just these bytes.
fn has(alloc: Global, desk: &mut MemDesk, name: &str, bytes: &[u8]) -> bool {
    match file_of(alloc, desk, name) {
        Some(file) => file.as_slice() == bytes,
        None => false,
    }
}

fn length_of(alloc: Global, desk: &mut MemDesk, name: &str) -> Option<usize> {
    match file_of(alloc, desk, name) {
        Some(file) => Some(file.len()),
        None => None,
    }
}

// What `check` comes to of a source and a file.
fn checked(
    rt: &impl Abort,
    alloc: Global,
    source: &[u8],
    file: &[u8],
    row: &Row<'_>,
) -> Result<(), Memory> {
    let words = words_of(alloc, CHECK)?;
    let mut desk = desk_with(alloc, &DeskFails::none(alloc), 200, source, b"", b"")?;
    desk.add("p", file)?;
    comes_to(rt, alloc, &words, &mut desk, row);
    Ok(())
}

// The file of the bit is just so, and it carries the bit, and not the bit turned round.
fn bit(rt: &impl Abort, alloc: Global) -> Result<(), Memory> {
    let words = words_of(alloc, PLAN)?;
    let file = bit_file(alloc)?;
    let mut desk = desk_with(alloc, &DeskFails::none(alloc), 200, BIT, b"", b"")?;
    let summary = b"worker 0 instructions 2 pages 1 needs 1 reads 0 writes 0\n";
    comes_to(
        rt,
        alloc,
        &words,
        &mut desk,
        &row_of(PLAN, Status::Ok, summary, b""),
    );
    assert!(rt; has(alloc, &mut desk, "p", &file));
    let yes = row_of(CHECK, Status::Ok, b"carries\n", b"");
    checked(rt, alloc, BIT, &file, &yes)?;
    let no = row_of(
        CHECK,
        Status::CheckNo,
        b"",
        b"mage: check: worker 0 directive 2\n",
    );
    checked(rt, alloc, NOT, &file, &no)
}

fn broken(
    rt: &impl Abort,
    alloc: Global,
    file: &[u8],
    warned: &'static [u8],
) -> Result<(), Memory> {
    let row = row_of(CHECK, Status::MemoryProgram, b"", warned);
    checked(rt, alloc, BIT, file, &row)
}

// Files that are no memory programs.
fn spoiled(rt: &impl Abort, alloc: Global) -> Result<(), Memory> {
    let mut file = bit_file(alloc)?;
    broken(rt, alloc, b"", b"mage: memory program: short at 0\n")?;
    file.push(0)?;
    broken(rt, alloc, &file, b"mage: memory program: extra at 96\n")?;
    file.truncate(95);
    broken(rt, alloc, &file, b"mage: memory program: short at 95\n")?;
    file.push(0)?;
    if let Some(byte) = file.get_mut(37) {
        *byte = 1;
    }
    broken(rt, alloc, &file, b"mage: memory program: bad field at 37\n")?;
    if let Some(byte) = file.get_mut(7) {
        *byte = 0x31;
    }
    broken(rt, alloc, &file, b"mage: memory program: bad version\n")?;
    if let Some(byte) = file.get_mut(0) {
        *byte = 0;
    }
    broken(rt, alloc, &file, b"mage: memory program: bad magic\n")
}

// Memory programs that can go wrong: their last directive finishes a slot that reads nothing, or their first names a frame
// that isn't there.
fn unsafe_ones(rt: &impl Abort, alloc: Global) -> Result<(), Memory> {
    let mut file = bit_file(alloc)?;
    file.truncate(76);
    put_short(&mut file, 0x44, 0)?;
    let slot = b"mage: memory program: Range worker 0 directive 2\n";
    broken(rt, alloc, &file, slot)?;
    if let Some(byte) = file.get_mut(23) {
        *byte = 1;
    }
    let idle = b"mage: memory program: SlotState worker 0 directive 2\n";
    broken(rt, alloc, &file, idle)?;
    if let Some(byte) = file.get_mut(41) {
        *byte = 1;
    }
    let frame = b"mage: memory program: Range worker 0 directive 0\n";
    broken(rt, alloc, &file, frame)
}

// A directive of a link, with the other worker: a value of one wire at the start of frame 0.
fn put_link(file: &mut Vec<u8>, code: u8, other: u8) -> Result<(), Memory> {
    file.extend_from_slice(&[code, 1, 0, other])?;
    file.extend_from_slice(&[0; 16])?;
    Ok(())
}

// Two workers, each with these two directives, in one frame and with one slot.
fn pair_file(alloc: Global, first: u8, second: u8) -> Result<Vec<u8>, Memory> {
    let mut file = Vec::new(alloc);
    file.extend_from_slice(b"MAGEMP02")?;
    file.extend_from_slice(&[0, 2, 0, 0, 0, 0, 0, 64, 0, 0, 0, 1, 0, 0, 0, 1, 0, 0, 0, 0])?;
    for other in [1u8, 0] {
        file.extend_from_slice(&[0, 0, 0, 0, 0, 0, 0, 2])?;
        put_link(&mut file, first, other)?;
        put_link(&mut file, second, other)?;
    }
    Ok(file)
}

// Workers that wait for one another: both receive first, or both send.
fn waiting(rt: &impl Abort, alloc: Global) -> Result<(), Memory> {
    const SEND: u8 = 16;
    const RECV: u8 = 17;
    let links = b"mage: memory program: Links worker 0 directive 0\n";
    broken(rt, alloc, &pair_file(alloc, RECV, SEND)?, links)?;
    broken(rt, alloc, &pair_file(alloc, SEND, RECV)?, links)
}

// Products of 128 numbers of each party at each of two workers, summed up, and added.
const LONG: &[u8] = b"workers 2; const N = 128; const M = 1; array t: u32[M] = lit u32 (0); \
    for w in 0..2 { on w { input garbler x: u32[N]; \
    for r in 0..M { input evaluator a: u32[N]; let s = lit u32 (0); \
    for i in 0..N { s = s + x[i] * a[i]; } on 0 { move p = s; t[r] = t[r] + p; } } } } \
    for r in 0..M { output t[r]; }";

// The four bytes at a place.
fn number_at(file: &[u8], place: usize) -> Option<u32> {
    let bytes = file.get(place..)?.get(..4)?;
    let mut number = 0u32;
    for byte in bytes {
        number = (number << 8) | u32::from(*byte);
    }
    Some(number)
}

// 25 store pages in each worker, whose pages leave 25 times and come back.
fn long(rt: &impl Abort, alloc: Global) -> Result<(), Memory> {
    let line = "plan --source s --out p --page 256 --frames 8 --buffer 4";
    let mut desk = desk_with(alloc, &DeskFails::none(alloc), 200, LONG, b"", b"")?;
    let summary = b"worker 0 instructions 518 pages 33 needs 3 reads 25 writes 25\n\
                    worker 1 instructions 514 pages 33 needs 3 reads 25 writes 25\n";
    let words = words_of(alloc, line)?;
    comes_to(
        rt,
        alloc,
        &words,
        &mut desk,
        &row_of("plan", Status::Ok, summary, b""),
    );
    let file = file_of(alloc, &mut desk, "p").ok_or(Memory)?;
    assert!(rt; number_at(&file, 28) == Some(25));
    let count = number_at(&file, 32).ok_or(Memory)?;
    // What fits the test's fetch has few directives.
    let second = 36 + 20 * (count.min(5_000) as usize);
    assert!(rt; number_at(&file, second) == Some(25));
    let yes = row_of(CHECK, Status::Ok, b"carries\n", b"");
    checked(rt, alloc, LONG, &file, &yes)
}

// A file that swaps, read again: 12 directives.
fn swapping(rt: &impl Abort, alloc: Global) -> Result<(), Memory> {
    let line = "plan --source s --out p --page 64 --frames 2 --buffer 1";
    let mut desk = desk_with(alloc, &DeskFails::none(alloc), 200, THREE, b"", b"")?;
    let summary = b"worker 0 instructions 5 pages 3 needs 1 reads 1 writes 1\n";
    let words = words_of(alloc, line)?;
    comes_to(
        rt,
        alloc,
        &words,
        &mut desk,
        &row_of("plan", Status::Ok, summary, b""),
    );
    assert!(rt; length_of(alloc, &mut desk, "p") == Some(276));
    let file = file_of(alloc, &mut desk, "p").ok_or(Memory)?;
    let yes = row_of(CHECK, Status::Ok, b"carries\n", b"");
    checked(rt, alloc, THREE, &file, &yes)?;
    let other = row_of(
        CHECK,
        Status::CheckNo,
        b"",
        b"mage: check: worker 0 directive 1\n",
    );
    checked(rt, alloc, BIT, &file, &other)
}

// What is refused opens no file.
fn unplanned(
    rt: &impl Abort,
    alloc: Global,
    line: &'static str,
    source: &[u8],
    status: Status,
    warned: &'static [u8],
) -> Result<(), Memory> {
    let words = words_of(alloc, line)?;
    let mut desk = desk_with(alloc, &DeskFails::none(alloc), 200, source, b"", b"")?;
    comes_to(
        rt,
        alloc,
        &words,
        &mut desk,
        &row_of(line, status, b"", warned),
    );
    assert!(rt; length_of(alloc, &mut desk, "p").is_none());
    Ok(())
}

fn refusals(rt: &impl Abort, alloc: Global) -> Result<(), Memory> {
    unplanned(
        rt,
        alloc,
        "plan --source s --out p --page 64 --frames 2 --buffer 0",
        THREE,
        Status::Limits,
        b"mage: limits: worker 0 instruction 2 needs a buffer slot\n",
    )?;
    unplanned(
        rt,
        alloc,
        PLAN,
        b"output y;",
        Status::Language,
        b"mage: source 1:8: UnknownName\n",
    )?;
    unplanned(
        rt,
        alloc,
        CHECK,
        b"output y;",
        Status::Language,
        b"mage: source 1:8: UnknownName\n",
    )?;
    unplanned(rt, alloc, CHECK, BIT, Status::Desk, b"mage: desk fault\n")?;
    unplanned(
        rt,
        alloc,
        "plan --source q --out p",
        BIT,
        Status::Desk,
        b"mage: desk fault\n",
    )
}

// One fetch; then the file is opened and closed, and the summary said.
fn failing(rt: &impl Abort, alloc: Global, call: u64, length: Option<usize>) -> Result<(), Memory> {
    let words = words_of(alloc, PLAN)?;
    let mut fails = DeskFails::none(alloc);
    fails.desk.push(call)?;
    let mut desk = desk_with(alloc, &fails, 200, BIT, b"", b"")?;
    let row = row_of(PLAN, Status::Desk, b"", b"mage: desk fault\n");
    comes_to(rt, alloc, &words, &mut desk, &row);
    assert!(rt; length_of(alloc, &mut desk, "p") == length, "{call}");
    Ok(())
}

#[test]
fn memory_programs_are_written_and_checked(rt: HostRuntime) -> Result<(), Fail> {
    let alloc = rt.alloc();
    bit(&rt, alloc)?;
    swapping(&rt, alloc)?;
    long(&rt, alloc)?;
    Ok(())
}

#[test]
fn memory_programs_are_refused(rt: HostRuntime) -> Result<(), Fail> {
    let alloc = rt.alloc();
    spoiled(&rt, alloc)?;
    unsafe_ones(&rt, alloc)?;
    waiting(&rt, alloc)?;
    refusals(&rt, alloc)?;
    Ok(())
}

#[test]
fn memory_programs_are_not_written(rt: HostRuntime) -> Result<(), Fail> {
    let alloc = rt.alloc();
    failing(&rt, alloc, 0, None)?;
    failing(&rt, alloc, 1, None)?;
    failing(&rt, alloc, 2, Some(0))?;
    failing(&rt, alloc, 3, Some(96))?;
    Ok(())
}
