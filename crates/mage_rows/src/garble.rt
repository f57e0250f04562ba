// `solo` over the garbler: the stream files that it writes. Their bytes are those of another program, tools/garbled_sum.py.
use crate::cases::{Row, SUM, comes_to, desk_with, words_of};
use mage_base::{Desk, DeskFails, MemDesk, Memory};
use mage_planner::Status;
use sha2::{Digest, Sha256};
use sqlite_items::Items;
use std::alloc::Global;
use std::process::Abort;
use std::test::Fail;

const GARBLE: &str = "solo --source s --driver garble --garbler g --seed d --stream p";

// Three values on a page each, of which the first two are put out.
const THREE: &[u8] =
    b"input garbler a: u64; input garbler b: u64; input garbler c: u64; output a; output b;";

// Five values, whose stream is longer than the 4,096 bytes that go to a file in one put.
const FIVE: &[u8] = b"input garbler a: u64; input garbler b: u64; input garbler c: u64; \
input garbler d: u64; input garbler e: u64; output a;";

// Two frames and one slot: the page of the second leaves for that of the third, and comes back.
const TIGHT: &str = "solo --source s --driver garble --garbler g --seed d --stream p --page 64 \
--frames 2 --buffer 1";

// SHA-256 of the stream of the garbler's 200 in the sum, with a seed of 32 zero bytes.
const STREAM: [u8; 32] = [
    0x77, 0x4b, 0x7c, 0x5f, 0xde, 0xff, 0xda, 0x73, 0xa9, 0x78, 0xf0, 0xc4, 0x49, 0x38, 0x73, 0xf0,
    0x99, 0x0f, 0x12, 0xa3, 0x51, 0x30, 0xfd, 0xd5, 0x46, 0xbd, 0x2c, 0x79, 0x1a, 0xfd, 0x15, 0x32,
];

const DESK_FAULT: &[u8] = b"mage: desk fault\n";

fn seeded(
    alloc: Global,
    fails: &DeskFails,
    source: &[u8],
    garbler: &[u8],
    seed: &[u8],
) -> Result<MemDesk, Memory> {
    let mut desk = desk_with(alloc, fails, 100, source, garbler, b"")?;
    match desk.add("d", seed) {
        Ok(()) => Ok(desk),
        Err(Memory) => Err(Memory),
    }
}

fn row_of(status: Status, warned: &'static [u8]) -> Row<'static> {
    Row {
        words: GARBLE,
        source: b"",
        garbler: b"",
        evaluator: b"",
        status,
        said: b"",
        warned,
    }
}

// The length of a file; none where there is no such file.
fn length_of(alloc: Global, desk: &mut MemDesk, name: &str) -> Option<usize> {
    match desk.fetch(alloc, name, 10_000) {
        Ok(bytes) => Some(bytes.len()),
        Err(_) => None,
    }
}

// The digest of a file; zeros where there is no such file.
fn digest_of(alloc: Global, desk: &mut MemDesk, name: &str) -> [u8; 32] {
    match desk.fetch(alloc, name, 10_000) {
        Ok(bytes) => Sha256::digest(bytes.as_slice()),
        Err(_) => [0; 32],
    }
}

// What comes of the sum with this text and seed, and how long the stream file is then.
fn garbled(
    rt: &impl Abort,
    alloc: Global,
    garbler: &[u8],
    seed: &[u8],
    row: &Row<'_>,
    length: Option<usize>,
) -> Result<(), Memory> {
    let words = words_of(alloc, GARBLE)?;
    let mut desk = seeded(alloc, &DeskFails::none(alloc), SUM, garbler, seed)?;
    comes_to(rt, alloc, &words, &mut desk, row);
    assert!(rt; length_of(alloc, &mut desk, "p.0") == length);
    Ok(())
}

fn the_sum(rt: &impl Abort, alloc: Global) -> Result<(), Memory> {
    let words = words_of(alloc, GARBLE)?;
    let mut desk = seeded(alloc, &DeskFails::none(alloc), SUM, b"200", &[0; 32])?;
    comes_to(rt, alloc, &words, &mut desk, &row_of(Status::Ok, b""));
    assert!(rt; length_of(alloc, &mut desk, "p.0") == Some(360));
    assert!(rt; digest_of(alloc, &mut desk, "p.0") == STREAM);
    assert!(rt; length_of(alloc, &mut desk, "p.1").is_none());
    Ok(())
}

// A program without instructions says an empty stream.
fn nothing(rt: &impl Abort, alloc: Global) -> Result<(), Memory> {
    let words = words_of(
        alloc,
        "solo --source s --driver garble --seed d --stream p --page 64 --frames 1 --buffer 0",
    )?;
    let mut desk = seeded(alloc, &DeskFails::none(alloc), b"", b"", &[0; 32])?;
    comes_to(rt, alloc, &words, &mut desk, &row_of(Status::Ok, b""));
    assert!(rt; length_of(alloc, &mut desk, "p.0") == Some(0));
    Ok(())
}

// Each worker has a stream of its own.
fn two_workers(rt: &impl Abort, alloc: Global) -> Result<(), Memory> {
    let source =
        b"workers 2;\ninput garbler x: u8;\non 1 { input evaluator y: u8; output y; }\noutput x;";
    let words = words_of(alloc, GARBLE)?;
    let mut desk = seeded(alloc, &DeskFails::none(alloc), source, b"7", &[1; 32])?;
    comes_to(rt, alloc, &words, &mut desk, &row_of(Status::Ok, b""));
    assert!(rt; length_of(alloc, &mut desk, "p.0") == Some(136));
    assert!(rt; length_of(alloc, &mut desk, "p.1") == Some(8));
    Ok(())
}

// The digest of the stream of the three values under these limits, and how often the store was read.
fn stream_under(
    rt: &impl Abort,
    alloc: Global,
    line: &str,
    reads: u64,
) -> Result<[u8; 32], Memory> {
    let words = words_of(alloc, line)?;
    let mut desk = seeded(
        alloc,
        &DeskFails::none(alloc),
        THREE,
        b"7\n8\n9\n",
        &[0; 32],
    )?;
    comes_to(rt, alloc, &words, &mut desk, &row_of(Status::Ok, b""));
    assert!(rt; length_of(alloc, &mut desk, "p.0") == Some(3200));
    assert_eq!(rt; desk.reads(0), reads);
    assert_eq!(rt; desk.writes(0), reads);
    Ok(digest_of(alloc, &mut desk, "p.0"))
}

// A stream doesn't depend on the limits.
fn whatever_the_limits(rt: &impl Abort, alloc: Global) -> Result<(), Memory> {
    let tight = stream_under(rt, alloc, TIGHT, 1)?;
    let wide = stream_under(rt, alloc, GARBLE, 0)?;
    assert!(rt; tight == wide);
    Ok(())
}

// Nothing is opened where the text or the seed is refused.
fn refused(rt: &impl Abort, alloc: Global) -> Result<(), Memory> {
    let seed = row_of(Status::InputText, b"mage: input seed\n");
    let line = row_of(Status::InputText, b"mage: input garbler line 1\n");
    garbled(rt, alloc, b"200", &[0; 31], &seed, None)?;
    garbled(rt, alloc, b"200", &[0; 33], &seed, None)?;
    garbled(rt, alloc, b"256", &[0; 32], &line, None)?;
    garbled(rt, alloc, b"", &[0; 31], &line, None)
}

// Three fetches; then a store is asked for, and the file is opened and closed.
fn failing(rt: &impl Abort, alloc: Global, call: u64, length: Option<usize>) -> Result<(), Memory> {
    let words = words_of(alloc, GARBLE)?;
    let mut fails = DeskFails::none(alloc);
    fails.desk.push(call)?;
    let mut desk = seeded(alloc, &fails, SUM, b"200", &[0; 32])?;
    comes_to(
        rt,
        alloc,
        &words,
        &mut desk,
        &row_of(Status::Desk, DESK_FAULT),
    );
    assert!(rt; length_of(alloc, &mut desk, "p.0") == length, "{call}");
    Ok(())
}

// A desk of which put number `put` of the stream file fails.
fn full(alloc: Global, source: &[u8], garbler: &[u8], put: u64) -> Result<MemDesk, Memory> {
    let mut calls = Items::new(alloc);
    calls.push(put)?;
    let mut fails = DeskFails::none(alloc);
    fails
        .outputs
        .push((String::from_str(alloc, "p.0")?, calls))?;
    seeded(alloc, &fails, source, garbler, &[0; 32])
}

fn puts(
    rt: &impl Abort,
    alloc: Global,
    put: u64,
    row: &Row<'_>,
    length: usize,
) -> Result<(), Memory> {
    let words = words_of(alloc, GARBLE)?;
    let mut desk = full(alloc, SUM, b"200", put)?;
    comes_to(rt, alloc, &words, &mut desk, row);
    assert!(rt; length_of(alloc, &mut desk, "p.0") == Some(length), "{put}");
    Ok(())
}

// What the stream file of the five values holds, where put number `put` of it fails.
fn stream_with(rt: &impl Abort, alloc: Global, put: u64, row: &Row<'_>) -> Result<Vec<u8>, Memory> {
    let words = words_of(alloc, GARBLE)?;
    let mut desk = full(alloc, FIVE, b"1\n2\n3\n4\n5\n", put)?;
    comes_to(rt, alloc, &words, &mut desk, row);
    match desk.fetch(alloc, "p.0", 10_000) {
        Ok(bytes) => Ok(bytes),
        Err(_) => Err(Memory),
    }
}

// Where the second put fails the file holds what the first one took: a front of the stream, neither empty nor all of it.
fn a_front(rt: &impl Abort, alloc: Global) -> Result<(), Memory> {
    let front = stream_with(rt, alloc, 1, &row_of(Status::Desk, DESK_FAULT))?;
    let whole = stream_with(rt, alloc, 2, &row_of(Status::Ok, b""))?;
    assert!(rt; !front.is_empty());
    assert!(rt; front.len() < whole.len());
    assert!(rt; whole.starts_with(&front));
    Ok(())
}

// A desk of which call number `call` of worker 0's store fails.
fn breaking(alloc: Global, call: u64) -> Result<MemDesk, Memory> {
    let mut calls = Items::new(alloc);
    calls.push(call)?;
    let mut fails = DeskFails::none(alloc);
    fails.stores.push((0, 0, calls))?;
    seeded(alloc, &fails, THREE, b"7\n8\n9\n", &[0; 32])
}

// The stream file of a run that a store stopped is closed, and begins the whole one.
fn breaks(rt: &impl Abort, alloc: Global, call: u64) -> Result<(), Memory> {
    let words = words_of(alloc, TIGHT)?;
    let mut desk = breaking(alloc, call)?;
    let broken = row_of(Status::Store, b"mage: store fault: worker 0\n");
    comes_to(rt, alloc, &words, &mut desk, &broken);
    assert!(rt; length_of(alloc, &mut desk, "p.0") == Some(0), "{call}");
    Ok(())
}

#[test]
fn streams_are_garbled(rt: HostRuntime) -> Result<(), Fail> {
    let alloc = rt.alloc();
    the_sum(&rt, alloc)?;
    nothing(&rt, alloc)?;
    two_workers(&rt, alloc)?;
    whatever_the_limits(&rt, alloc)?;
    Ok(())
}

#[test]
fn streams_are_not_garbled(rt: HostRuntime) -> Result<(), Fail> {
    let alloc = rt.alloc();
    refused(&rt, alloc)?;
    for call in 0..5 {
        failing(&rt, alloc, call, None)?;
    }
    failing(&rt, alloc, 5, Some(0))?;
    Ok(())
}

#[test]
fn streams_may_break_off(rt: HostRuntime) -> Result<(), Fail> {
    let alloc = rt.alloc();
    puts(&rt, alloc, 0, &row_of(Status::Desk, DESK_FAULT), 0)?;
    puts(&rt, alloc, 1, &row_of(Status::Ok, b""), 360)?;
    a_front(&rt, alloc)?;
    breaks(&rt, alloc, 0)?;
    breaks(&rt, alloc, 1)?;
    Ok(())
}
