// `gen`: sources and input texts that are written, and what they come to. The numbers follow from the rule of docs/COMMANDS.md, and
// the sums of products are worked out apart from the program.
use crate::cases::{Row, comes_to, words_of};
use mage_base::{Desk, DeskFails, MemDesk, Memory};
use mage_planner::Status;
use sqlite_items::Items;
use std::alloc::Global;
use std::process::Abort;
use std::test::Fail;

// Two items, and all else as it is without an option.
const TWO: &str = "gen --items 2 --out p";

const TWO_SAID: &[u8] = b"worker 0 instructions 12 pages 1 needs 1 reads 0 writes 0\n3704774559\n";

const TWO_SOURCE: &[u8] =
    b"workers 1 ;\nconst N = 2 ;\nconst M = 1 ;\narray t : u32 [ M ] = lit u32 ( 0 ) ;\n\
    for w in 0 .. 1 {\non w {\ninput garbler x : u32 [ N ] ;\nfor r in 0 .. M {\n\
    input evaluator a : u32 [ N ] ;\nlet s = lit u32 ( 0 ) ;\nfor i in 0 .. N {\n\
    s = s + x [ i ] * a [ i ] ;\n}\non 0 {\nmove p = s ;\nt [ r ] = t [ r ] + p ;\n}\n}\n}\n}\n\
    for r in 0 .. M {\noutput t [ r ] ;\n}\n";

const TWO_GARBLER: &[u8] = b"1013904223\n1196435762\n";

const TWO_EVALUATOR: &[u8] = b"3519870697\n2868466484\n";

// Many items in few frames, so that pages go to the store and come back.
const MANY: &str = "gen --items 128 --page 256 --frames 8 --buffer 4 --out p";

const MANY_SAID: &[u8] =
    b"worker 0 instructions 516 pages 33 needs 3 reads 25 writes 25\n2538666432\n";

fn row_of(
    words: &'static str,
    status: Status,
    said: &'static [u8],
    warned: &'static [u8],
) -> Row<'static> {
    Row {
        words,
        source: b"",
        garbler: b"",
        evaluator: b"",
        status,
        said,
        warned,
    }
}

// Whether a file has just these bytes.
fn has(alloc: Global, desk: &mut MemDesk, name: &str, wanted: &[u8]) -> bool {
    match desk.fetch(alloc, name, 100_000) {
        Ok(bytes) => bytes.as_slice() == wanted,
        Err(_) => false,
    }
}

fn is_there(alloc: Global, desk: &mut MemDesk, name: &str) -> bool {
    desk.fetch(alloc, name, 100_000).is_ok()
}

fn has_all(alloc: Global, desk: &mut MemDesk) -> bool {
    has(alloc, desk, "p.mage", TWO_SOURCE)
        && has(alloc, desk, "p.garbler", TWO_GARBLER)
        && has(alloc, desk, "p.evaluator", TWO_EVALUATOR)
}

fn writes_and_says(rt: &impl Abort, alloc: Global) -> Result<(), Memory> {
    let words = words_of(alloc, TWO)?;
    let mut desk = MemDesk::make(alloc, 1000, &DeskFails::none(alloc))?;
    comes_to(
        rt,
        alloc,
        &words,
        &mut desk,
        &row_of(TWO, Status::Ok, TWO_SAID, b""),
    );
    assert!(rt; has_all(alloc, &mut desk));
    Ok(())
}

fn moves_pages(rt: &impl Abort, alloc: Global) -> Result<(), Memory> {
    let words = words_of(alloc, MANY)?;
    let mut desk = MemDesk::make(alloc, 1000, &DeskFails::none(alloc))?;
    comes_to(
        rt,
        alloc,
        &words,
        &mut desk,
        &row_of(MANY, Status::Ok, MANY_SAID, b""),
    );
    assert_eq!(rt; desk.reads(0), 25);
    assert_eq!(rt; desk.writes(0), 25);
    Ok(())
}

// A product's two factors and its result lie on three pages of 64 wires. No file is opened.
fn is_refused(rt: &impl Abort, alloc: Global) -> Result<(), Memory> {
    let line = "gen --items 1 --out p --page 64 --frames 1";
    let words = words_of(alloc, line)?;
    let mut desk = MemDesk::make(alloc, 1000, &DeskFails::none(alloc))?;
    let warned = b"mage: limits: worker 0 instruction 4 needs 3 pages, has 1 frames\n";
    comes_to(
        rt,
        alloc,
        &words,
        &mut desk,
        &row_of("gen", Status::Limits, b"", warned),
    );
    assert!(rt; !is_there(alloc, &mut desk, "p.mage"));
    Ok(())
}

// Each of three files is opened and closed, one store is asked for, and then it is said. With the calls that come after the last
// close, all files are there.
fn failing(rt: &impl Abort, alloc: Global, call: u64, whole: bool) -> Result<(), Memory> {
    let words = words_of(alloc, TWO)?;
    let mut fails = DeskFails::none(alloc);
    fails.desk.push(call)?;
    let mut desk = MemDesk::make(alloc, 1000, &fails)?;
    comes_to(
        rt,
        alloc,
        &words,
        &mut desk,
        &row_of(TWO, Status::Desk, b"", b"mage: desk fault\n"),
    );
    assert!(rt; has_all(alloc, &mut desk) == whole, "{call}");
    Ok(())
}

// The first call of the store fails.
fn breaking(rt: &impl Abort, alloc: Global) -> Result<(), Memory> {
    let words = words_of(alloc, MANY)?;
    let mut calls = Items::new(alloc);
    calls.push(0)?;
    let mut fails = DeskFails::none(alloc);
    fails.stores.push((0, 0, calls))?;
    let mut desk = MemDesk::make(alloc, 1000, &fails)?;
    comes_to(
        rt,
        alloc,
        &words,
        &mut desk,
        &row_of(MANY, Status::Store, b"", b"mage: store fault: worker 0\n"),
    );
    assert!(rt; is_there(alloc, &mut desk, "p.evaluator"));
    Ok(())
}

#[test]
fn sources_are_generated(rt: HostRuntime) -> Result<(), Fail> {
    let alloc = rt.alloc();
    writes_and_says(&rt, alloc)?;
    moves_pages(&rt, alloc)?;
    Ok(())
}

#[test]
fn sources_are_not_generated(rt: HostRuntime) -> Result<(), Fail> {
    let alloc = rt.alloc();
    is_refused(&rt, alloc)?;
    for call in 0..6 {
        failing(&rt, alloc, call, false)?;
    }
    failing(&rt, alloc, 6, true)?;
    failing(&rt, alloc, 7, true)?;
    breaking(&rt, alloc)?;
    Ok(())
}
