// `solo` over the evaluator: what it says of streams that `solo` garbled and of labels that `deal` dealt, and what is wrong with
// others.
use crate::cases::{Row, SUM, comes_to, desk_with, status_of, words_of};
use mage_base::{Desk, DeskFails, MemDesk, Memory};
use mage_planner::Status;
use sqlite_items::Items;
use std::alloc::Global;
use std::process::Abort;
use std::test::Fail;

const GARBLE: &str = "solo --source s --driver garble --garbler g --seed d --stream p";

const DEAL: &str = "deal --source s --evaluator e --seed d --labels l";

const EVAL: &str = "solo --source s --driver eval --stream p --labels l";

const DESK_FAULT: &[u8] = b"mage: desk fault\n";

fn row_of(status: Status, said: &'static [u8], warned: &'static [u8]) -> Row<'static> {
    Row {
        words: EVAL,
        source: b"",
        garbler: b"",
        evaluator: b"",
        status,
        said,
        warned,
    }
}

// A desk with the sum's files, on which nothing was done yet.
fn fresh(alloc: Global, fails: &DeskFails, source: &[u8]) -> Result<MemDesk, Memory> {
    let mut desk = desk_with(alloc, fails, 2000, source, b"200", b"100")?;
    match desk.add("d", &[0; 32]) {
        Ok(()) => Ok(desk),
        Err(Memory) => Err(Memory),
    }
}

// The bytes of a file that a command wrote; none where there is no such file.
fn bytes_of(alloc: Global, desk: &mut MemDesk, name: &str) -> Vec<u8> {
    match desk.fetch(alloc, name, 10_000) {
        Ok(bytes) => bytes,
        Err(_) => Vec::new(alloc),
    }
}

fn made_on(alloc: Global, desk: &mut MemDesk, line: &str) -> Result<Status, Memory> {
    let words = words_of(alloc, line)?;
    Ok(status_of(alloc, &words, desk))
}

// The stream that the garbler's 200 comes to in the sum.
fn stream_of_sum(alloc: Global) -> Result<Vec<u8>, Memory> {
    let mut desk = fresh(alloc, &DeskFails::none(alloc), SUM)?;
    made_on(alloc, &mut desk, GARBLE)?;
    Ok(bytes_of(alloc, &mut desk, "p.0"))
}

// The labels of the evaluator's 100 in the sum.
fn labels_of_sum(alloc: Global) -> Result<Vec<u8>, Memory> {
    let mut desk = fresh(alloc, &DeskFails::none(alloc), SUM)?;
    made_on(alloc, &mut desk, DEAL)?;
    Ok(bytes_of(alloc, &mut desk, "l.0"))
}

fn add_both(desk: &mut MemDesk, stream: &[u8], labels: &[u8]) -> Result<(), Memory> {
    desk.add("p.0", stream)?;
    desk.add("l.0", labels)
}

fn evaluator(
    alloc: Global,
    fails: &DeskFails,
    stream: &[u8],
    labels: &[u8],
) -> Result<MemDesk, Memory> {
    let mut desk = fresh(alloc, fails, SUM)?;
    match add_both(&mut desk, stream, labels) {
        Ok(()) => Ok(desk),
        Err(Memory) => Err(Memory),
    }
}

// What comes of the sum over this stream, with these labels.
fn evaluated(
    rt: &impl Abort,
    alloc: Global,
    fails: &DeskFails,
    stream: &[u8],
    labels: &[u8],
    row: &Row<'_>,
) -> Result<(), Memory> {
    let words = words_of(alloc, EVAL)?;
    let mut desk = evaluator(alloc, fails, stream, labels)?;
    comes_to(rt, alloc, &words, &mut desk, row);
    Ok(())
}

fn the_sum(rt: &impl Abort, alloc: Global) -> Result<(), Memory> {
    let stream = stream_of_sum(alloc)?;
    let labels = labels_of_sum(alloc)?;
    assert_eq!(rt; stream.len(), 360);
    assert_eq!(rt; labels.len(), 128);
    let none = DeskFails::none(alloc);
    evaluated(
        rt,
        alloc,
        &none,
        &stream,
        &labels,
        &row_of(Status::Ok, b"44\n", b""),
    )
}

// A stream that was changed at a byte.
fn changed(stream: &[u8], place: usize, alloc: Global) -> Result<Vec<u8>, Memory> {
    let mut bytes = Vec::new(alloc);
    for (k, byte) in stream.iter().enumerate() {
        bytes.push(if k == place { 2 } else { *byte })?;
    }
    Ok(bytes)
}

fn longer(stream: &[u8], alloc: Global) -> Result<Vec<u8>, Memory> {
    let mut bytes = Vec::new(alloc);
    bytes.extend_from_slice(stream)?;
    bytes.push(0)?;
    Ok(bytes)
}

fn wrong_streams(rt: &impl Abort, alloc: Global) -> Result<(), Memory> {
    let stream = stream_of_sum(alloc)?;
    let labels = labels_of_sum(alloc)?;
    let none = DeskFails::none(alloc);
    let cut = &stream[..stream.len().saturating_sub(1)];
    let short = row_of(
        Status::Stream,
        b"",
        b"mage: stream of worker 0: short at 359\n",
    );
    evaluated(rt, alloc, &none, cut, &labels, &short)?;
    let colour = row_of(
        Status::Stream,
        b"",
        b"mage: stream of worker 0: colour at 352\n",
    );
    evaluated(
        rt,
        alloc,
        &none,
        &changed(&stream, 352, alloc)?,
        &labels,
        &colour,
    )?;
    let long = row_of(
        Status::Stream,
        b"",
        b"mage: stream of worker 0: long at 360\n",
    );
    evaluated(rt, alloc, &none, &longer(&stream, alloc)?, &labels, &long)?;
    let empty = row_of(
        Status::Stream,
        b"",
        b"mage: stream of worker 0: short at 0\n",
    );
    evaluated(rt, alloc, &none, b"", &labels, &empty)
}

fn wrong_labels(rt: &impl Abort, alloc: Global) -> Result<(), Memory> {
    let none = DeskFails::none(alloc);
    let wrong = row_of(Status::InputText, b"", b"mage: input labels 0\n");
    evaluated(rt, alloc, &none, b"", &[0; 127], &wrong)?;
    evaluated(rt, alloc, &none, b"", &[0; 129], &wrong)?;
    evaluated(rt, alloc, &none, b"", b"", &wrong)
}

// Two fetches, a store, a stream opened; then what was put out is said.
fn failing(rt: &impl Abort, alloc: Global, call: u64) -> Result<(), Memory> {
    let stream = stream_of_sum(alloc)?;
    let labels = labels_of_sum(alloc)?;
    let mut fails = DeskFails::none(alloc);
    fails.desk.push(call)?;
    evaluated(
        rt,
        alloc,
        &fails,
        &stream,
        &labels,
        &row_of(Status::Desk, b"", DESK_FAULT),
    )
}

// A call of the source of the stream fails.
fn breaking(rt: &impl Abort, alloc: Global) -> Result<(), Memory> {
    let stream = stream_of_sum(alloc)?;
    let labels = labels_of_sum(alloc)?;
    let mut calls = Items::new(alloc);
    calls.push(0)?;
    let mut fails = DeskFails::none(alloc);
    fails.inputs.push((String::from_str(alloc, "p.0")?, calls))?;
    evaluated(
        rt,
        alloc,
        &fails,
        &stream,
        &labels,
        &row_of(Status::Desk, b"", DESK_FAULT),
    )
}

// Neither the labels nor the stream are there.
fn missing(rt: &impl Abort, alloc: Global) -> Result<(), Memory> {
    let words = words_of(alloc, EVAL)?;
    let mut desk = fresh(alloc, &DeskFails::none(alloc), SUM)?;
    comes_to(
        rt,
        alloc,
        &words,
        &mut desk,
        &row_of(Status::Desk, b"", DESK_FAULT),
    );
    Ok(())
}

#[test]
fn streams_are_evaluated(rt: HostRuntime) -> Result<(), Fail> {
    the_sum(&rt, rt.alloc())?;
    Ok(())
}

#[test]
fn wrong_streams_and_labels_are_named(rt: HostRuntime) -> Result<(), Fail> {
    let alloc = rt.alloc();
    wrong_streams(&rt, alloc)?;
    wrong_labels(&rt, alloc)?;
    Ok(())
}

#[test]
fn evaluating_may_fail(rt: HostRuntime) -> Result<(), Fail> {
    let alloc = rt.alloc();
    for call in 0..5 {
        failing(&rt, alloc, call)?;
    }
    breaking(&rt, alloc)?;
    missing(&rt, alloc)?;
    Ok(())
}
