// `deal`: the label files that it writes. Their bytes are those of another program, tools/garbled_sum.py.
use crate::cases::{Row, SUM, comes_to, desk_with, words_of};
use mage_base::{Desk, DeskFails, MemDesk, Memory};
use mage_planner::Status;
use sha2::{Digest, Sha256};
use std::alloc::Global;
use std::process::Abort;
use std::test::Fail;

const DEAL: &str = "deal --source s --evaluator e --seed d --labels p";

// SHA-256 of the labels of the evaluator's 100 in the sum, with a seed of 32 zero bytes.
const LABELS: [u8; 32] = [
    0xeb, 0x22, 0xc1, 0x0e, 0xe7, 0x50, 0x1b, 0x90, 0x85, 0x6b, 0x88, 0xbb, 0x83, 0x25, 0x0a, 0xf1,
    0xc0, 0x1f, 0x4b, 0x73, 0x85, 0x00, 0xde, 0x8d, 0xe8, 0xe4, 0x37, 0x9d, 0x46, 0x4e, 0x93, 0xed,
];

fn seeded(
    alloc: Global,
    fails: &DeskFails,
    source: &[u8],
    evaluator: &[u8],
    seed: &[u8],
) -> Result<MemDesk, Memory> {
    let mut desk = desk_with(alloc, fails, 100, source, b"", evaluator)?;
    match desk.add("d", seed) {
        Ok(()) => Ok(desk),
        Err(Memory) => Err(Memory),
    }
}

fn row_of(status: Status, warned: &'static [u8]) -> Row<'static> {
    Row {
        words: DEAL,
        source: b"",
        garbler: b"",
        evaluator: b"",
        status,
        said: b"",
        warned,
    }
}

// The length of a file; none where there is no such file.
fn length_of(alloc: Global, desk: &mut MemDesk, name: &str) -> Option<usize> {
    match desk.fetch(alloc, name, 1000) {
        Ok(bytes) => Some(bytes.len()),
        Err(_) => None,
    }
}

// Whether a file has the labels of the sum.
fn has_labels(alloc: Global, desk: &mut MemDesk, name: &str) -> bool {
    match desk.fetch(alloc, name, 1000) {
        Ok(bytes) => Sha256::digest(bytes.as_slice()) == LABELS,
        Err(_) => false,
    }
}

// What comes of the sum with this text and seed, and how long the first worker's file is then.
fn dealt(
    rt: &impl Abort,
    alloc: Global,
    evaluator: &[u8],
    seed: &[u8],
    row: &Row<'_>,
    length: Option<usize>,
) -> Result<(), Memory> {
    let words = words_of(alloc, DEAL)?;
    let mut desk = seeded(alloc, &DeskFails::none(alloc), SUM, evaluator, seed)?;
    comes_to(rt, alloc, &words, &mut desk, row);
    assert!(rt; length_of(alloc, &mut desk, "p.0") == length);
    Ok(())
}

fn done(rt: &impl Abort, alloc: Global) -> Result<(), Memory> {
    let words = words_of(alloc, DEAL)?;
    let mut desk = seeded(alloc, &DeskFails::none(alloc), SUM, b"100", &[0; 32])?;
    comes_to(rt, alloc, &words, &mut desk, &row_of(Status::Ok, b""));
    assert!(rt; length_of(alloc, &mut desk, "p.0") == Some(128));
    assert!(rt; has_labels(alloc, &mut desk, "p.0"));
    assert!(rt; length_of(alloc, &mut desk, "p.1").is_none());
    Ok(())
}

// Nothing is opened where the text or the seed is refused.
fn refused(rt: &impl Abort, alloc: Global) -> Result<(), Memory> {
    let seed = row_of(Status::InputText, b"mage: input seed\n");
    let line = row_of(Status::InputText, b"mage: input evaluator line 1\n");
    dealt(rt, alloc, b"100", &[0; 31], &seed, None)?;
    dealt(rt, alloc, b"100", &[0; 33], &seed, None)?;
    dealt(rt, alloc, b"100", b"", &seed, None)?;
    dealt(rt, alloc, b"256", &[0; 32], &line, None)?;
    dealt(rt, alloc, b"", &[0; 31], &line, None)
}

// Three fetches, and then the file is opened and closed.
fn failing(rt: &impl Abort, alloc: Global, call: u64, length: Option<usize>) -> Result<(), Memory> {
    let words = words_of(alloc, DEAL)?;
    let mut fails = DeskFails::none(alloc);
    fails.desk.push(call)?;
    let mut desk = seeded(alloc, &fails, SUM, b"100", &[0; 32])?;
    comes_to(
        rt,
        alloc,
        &words,
        &mut desk,
        &row_of(Status::Desk, b"mage: desk fault\n"),
    );
    assert!(rt; length_of(alloc, &mut desk, "p.0") == length, "{call}");
    Ok(())
}

// A worker that has no input of the evaluator gets an empty file.
fn two_workers(rt: &impl Abort, alloc: Global) -> Result<(), Memory> {
    let source =
        b"workers 2;\ninput garbler x: u8;\non 1 { input evaluator y: u8; output y; }\noutput x;";
    let words = words_of(alloc, DEAL)?;
    let mut desk = seeded(alloc, &DeskFails::none(alloc), source, b"7", &[1; 32])?;
    comes_to(rt, alloc, &words, &mut desk, &row_of(Status::Ok, b""));
    assert!(rt; length_of(alloc, &mut desk, "p.0") == Some(0));
    assert!(rt; length_of(alloc, &mut desk, "p.1") == Some(128));
    Ok(())
}

#[test]
fn labels_are_dealt(rt: HostRuntime) -> Result<(), Fail> {
    let alloc = rt.alloc();
    done(&rt, alloc)?;
    two_workers(&rt, alloc)?;
    Ok(())
}

#[test]
fn labels_are_not_dealt(rt: HostRuntime) -> Result<(), Fail> {
    let alloc = rt.alloc();
    refused(&rt, alloc)?;
    for call in 0..4 {
        failing(&rt, alloc, call, None)?;
    }
    failing(&rt, alloc, 4, Some(0))?;
    Ok(())
}
