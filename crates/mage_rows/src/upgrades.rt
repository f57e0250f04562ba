// `upgrade`: files of the first version. Their bytes are put together by hand from docs/FORMAT.md.
use crate::cases::{Row, comes_to, desk_with, words_of};
use mage_base::{Desk, DeskFails, MemDesk, Memory};
use mage_planner::Status;
use std::alloc::Global;
use std::process::Abort;
use std::test::Fail;

const UPGRADE: &str = "upgrade --program p --out o";

// Three values of a page each, of which the first two are said.
const THREE: &[u8] = b"input garbler a: u64; input garbler b: u64; input garbler c: u64; \
                       output a; output b;";

// One worker on pages of 64 wires, with two frames, one slot and 64 ahead; twelve directives.
const FRONT: [u8; 32] = [
    0x4d, 0x41, 0x47, 0x45, 0x4d, 0x50, 0x30, 0x31, 0, 1, 0, 0, 0, 0, 0, 64, 0, 0, 0, 2, 0, 0, 0,
    1, 0, 0, 0, 64, 0, 0, 0, 12,
];

// A directive with this frame, or of slot 0, and this page.
fn put(file: &mut Vec<u8>, code: u8, width: u8, frame: u8, page: u8) -> Result<(), Memory> {
    file.extend_from_slice(&[code, width, 0, 0, 0, frame, 0, 0])?;
    file.extend_from_slice(&[0, 0, 0, page, 0, 0, 0, 0, 0, 0, 0, 0])?;
    Ok(())
}

// The file of the three values in two frames: page 1 leaves for the third, and comes back.
fn three_file(alloc: Global) -> Result<Vec<u8>, Memory> {
    let mut file = Vec::new(alloc);
    file.extend_from_slice(&FRONT)?;
    put(&mut file, 0x40, 0, 0, 0)?;
    put(&mut file, 0, 64, 0, 0)?;
    put(&mut file, 0x40, 0, 1, 1)?;
    put(&mut file, 0, 64, 1, 0)?;
    put(&mut file, 0x43, 0, 1, 1)?;
    put(&mut file, 0x40, 0, 1, 2)?;
    put(&mut file, 0, 64, 1, 0)?;
    put(&mut file, 2, 64, 0, 0)?;
    put(&mut file, 0x44, 0, 0, 0)?;
    put(&mut file, 0x41, 0, 0, 1)?;
    put(&mut file, 0x42, 0, 0, 0)?;
    put(&mut file, 2, 64, 0, 0)?;
    Ok(file)
}

fn row_of(status: Status, said: &'static [u8], warned: &'static [u8]) -> Row<'static> {
    Row {
        words: UPGRADE,
        source: b"",
        garbler: b"",
        evaluator: b"",
        status,
        said,
        warned,
    }
}

// The bytes of a file; none where there is no such file.
fn file_of(alloc: Global, desk: &mut MemDesk, name: &str) -> Option<Vec<u8>> {
    desk.fetch(alloc, name, 100_000).ok()
}

fn length_of(alloc: Global, desk: &mut MemDesk, name: &str) -> Option<usize> {
    match file_of(alloc, desk, name) {
        Some(file) => Some(file.len()),
        None => None,
    }
}

fn are_same(alloc: Global, desk: &mut MemDesk, one: &str, other: &str) -> bool {
    match (file_of(alloc, desk, one), file_of(alloc, desk, other)) {
        (Some(one), Some(other)) => one.as_slice() == other.as_slice(),
        _ => false,
    }
}

fn comes(
    rt: &impl Abort,
    alloc: Global,
    line: &str,
    desk: &mut MemDesk,
    row: &Row<'_>,
) -> Result<(), Memory> {
    let words = words_of(alloc, line)?;
    comes_to(rt, alloc, &words, desk, row);
    Ok(())
}

// The file becomes the one that `plan` writes.
fn upgraded(rt: &impl Abort, alloc: Global) -> Result<(), Memory> {
    let mut desk = desk_with(alloc, &DeskFails::none(alloc), 200, THREE, b"", b"")?;
    desk.add("p", &three_file(alloc)?)?;
    assert!(rt; length_of(alloc, &mut desk, "p") == Some(272));
    let quiet = row_of(Status::Ok, b"", b"");
    comes(rt, alloc, UPGRADE, &mut desk, &quiet)?;
    assert!(rt; length_of(alloc, &mut desk, "o") == Some(276));
    let line = "plan --source s --out q --page 64 --frames 2 --buffer 1";
    let summary = b"worker 0 instructions 5 pages 3 needs 1 reads 1 writes 1\n";
    comes(
        rt,
        alloc,
        line,
        &mut desk,
        &row_of(Status::Ok, summary, b""),
    )?;
    assert!(rt; are_same(alloc, &mut desk, "o", "q"));
    Ok(())
}

// A file is refused, and none is opened.
fn refused(
    rt: &impl Abort,
    alloc: Global,
    file: &[u8],
    status: Status,
    warned: &'static [u8],
) -> Result<(), Memory> {
    let mut desk = desk_with(alloc, &DeskFails::none(alloc), 200, THREE, b"", b"")?;
    desk.add("p", file)?;
    comes(rt, alloc, UPGRADE, &mut desk, &row_of(status, b"", warned))?;
    assert!(rt; length_of(alloc, &mut desk, "o").is_none());
    Ok(())
}

fn with(file: &mut [u8], place: usize, value: u8) {
    if let Some(byte) = file.get_mut(place) {
        *byte = value;
    }
}

fn refusals(rt: &impl Abort, alloc: Global) -> Result<(), Memory> {
    const PROGRAM: Status = Status::MemoryProgram;
    let mut file = three_file(alloc)?;
    file.push(0)?;
    refused(
        rt,
        alloc,
        &file,
        PROGRAM,
        b"mage: memory program: extra at 272\n",
    )?;
    file.truncate(271);
    refused(
        rt,
        alloc,
        &file,
        PROGRAM,
        b"mage: memory program: short at 271\n",
    )?;
    file.push(0)?;
    // The page of the read is one that no write stored.
    with(&mut file, 32 + 9 * 20 + 11, 0);
    let page = b"mage: memory program: PageState worker 0 directive 9\n";
    refused(rt, alloc, &file, PROGRAM, page)?;
    with(&mut file, 7, 0x32);
    let version = b"mage: memory program: bad version\n";
    refused(rt, alloc, &file, PROGRAM, version)
}

#[test]
fn files_of_the_first_version_are_upgraded(rt: HostRuntime) -> Result<(), Fail> {
    let alloc = rt.alloc();
    upgraded(&rt, alloc)?;
    refusals(&rt, alloc)?;
    Ok(())
}
