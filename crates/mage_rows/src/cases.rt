// Commands over a desk in memory, and what comes of them. These helpers have no clauses, so that a row costs little to prove.
use mage_base::{DeskFails, MemDesk, Memory};
use mage_planner::{Status, planner};
use std::alloc::{AllocError, Global};
use std::process::Abort;

pub const SOLO: &str = "solo --source s --garbler g --evaluator e";

pub const SUM: &[u8] = b"input garbler a: u8; input evaluator b: u8; output a + b;";

/// The words, which single spaces part; the source, the garbler's and the evaluator's text; then the status, what is
/// said and what is warned.
#[derive(Clone, Copy)]
pub struct Row<'a> {
    pub words: &'a str,
    pub source: &'a [u8],
    pub garbler: &'a [u8],
    pub evaluator: &'a [u8],
    pub status: Status,
    pub said: &'a [u8],
    pub warned: &'a [u8],
}

/// The words of a line.
pub fn words_of(alloc: Global, line: &str) -> Result<Vec<String>, AllocError> {
    let mut words = Vec::new(alloc);
    for word in line.split(' ') {
        words.push(String::from_str(alloc, word)?)?;
    }
    Ok(words)
}

fn add_files(
    desk: &mut MemDesk,
    source: &[u8],
    garbler: &[u8],
    evaluator: &[u8],
) -> Result<(), Memory> {
    desk.add("s", source)?;
    desk.add("g", garbler)?;
    desk.add("e", evaluator)
}

/// A desk with these files and this room.
pub fn desk_with(
    alloc: Global,
    fails: &DeskFails,
    room: u64,
    source: &[u8],
    garbler: &[u8],
    evaluator: &[u8],
) -> Result<MemDesk, Memory> {
    let mut desk = MemDesk::make(alloc, room, fails)?;
    match add_files(&mut desk, source, garbler, evaluator) {
        Ok(()) => Ok(desk),
        Err(Memory) => Err(Memory),
    }
}

/// What `planner` answers: its clauses are left here, and not carried through a test.
pub fn status_of(alloc: Global, words: &[String], desk: &mut MemDesk) -> Status {
    planner(alloc, words, desk)
}

/// Whether the words on this desk come to what a row says.
pub fn comes_to(
    rt: &impl Abort,
    alloc: Global,
    words: &[String],
    desk: &mut MemDesk,
    row: &Row<'_>,
) {
    let status = status_of(alloc, words, desk);
    assert_eq!(rt; status, row.status, "{} of {:?}", row.words, row.source);
    assert_eq!(rt; desk.said(), row.said, "{} of {:?}", row.words, row.source);
    assert_eq!(rt;
        desk.warned(),
        row.warned,
        "{} of {:?}",
        row.words,
        row.source
    );
}

fn run_words(
    rt: &impl Abort,
    alloc: Global,
    words: &[String],
    fails: &DeskFails,
    room: u64,
    row: &Row<'_>,
) -> Result<(), Memory> {
    let mut desk = desk_with(alloc, fails, room, row.source, row.garbler, row.evaluator)?;
    comes_to(rt, alloc, words, &mut desk, row);
    Ok(())
}

/// Runs a row on a desk with this room, of whose calls some are to fail.
pub fn run_with(
    rt: &impl Abort,
    alloc: Global,
    fails: &DeskFails,
    room: u64,
    row: &Row<'_>,
) -> Result<(), Memory> {
    let words = words_of(alloc, row.words)?;
    run_words(rt, alloc, &words, fails, room, row)
}

fn check(rt: &impl Abort, alloc: Global, row: &Row<'_>) {
    let ran = run_with(rt, alloc, &DeskFails::none(alloc), 2000, row);
    assert!(rt; ran.is_ok(), "no memory for {}", row.words);
}

/// A command that is done: words, source, the garbler's and the evaluator's text, and what is said.
pub fn done(
    rt: &impl Abort,
    alloc: Global,
    words: &str,
    source: &[u8],
    garbler: &[u8],
    evaluator: &[u8],
    said: &[u8],
) {
    let row = Row {
        words,
        source,
        garbler,
        evaluator,
        status: Status::Ok,
        said,
        warned: b"",
    };
    check(rt, alloc, &row);
}

/// A command that is refused: words, source, the garbler's and the evaluator's text, the status and what is warned.
pub fn refused(
    rt: &impl Abort,
    alloc: Global,
    words: &str,
    source: &[u8],
    garbler: &[u8],
    evaluator: &[u8],
    status: Status,
    warned: &[u8],
) {
    let row = Row {
        words,
        source,
        garbler,
        evaluator,
        status,
        said: b"",
        warned,
    };
    check(rt, alloc, &row);
}

/// `solo` that is done.
pub fn says(
    rt: &impl Abort,
    alloc: Global,
    source: &[u8],
    garbler: &[u8],
    evaluator: &[u8],
    said: &[u8],
) {
    done(rt, alloc, SOLO, source, garbler, evaluator, said);
}
