// Faults of the desk, and two commands on one desk.
use crate::cases::{Row, SOLO, SUM, desk_with, refused, run_with, status_of, words_of};
use mage_base::{DeskFails, MemDesk, Memory};
use mage_planner::Status;
use std::alloc::Global;
use std::process::Abort;
use std::test::Fail;

const DESK_FAULT: &[u8] = b"mage: desk fault\n";

// A command on two numbers.
fn row_of(
    words: &'static str,
    source: &'static [u8],
    status: Status,
    said: &'static [u8],
    warned: &'static [u8],
) -> Row<'static> {
    Row {
        words,
        source,
        garbler: b"200",
        evaluator: b"100",
        status,
        said,
        warned,
    }
}

fn run_failing(rt: &impl Abort, alloc: Global, call: u64, row: &Row<'_>) -> Result<(), Memory> {
    let mut fails = DeskFails::none(alloc);
    fails.desk.push(call)?;
    run_with(rt, alloc, &fails, 1000, row)
}

// Runs a row, where one call of the desk fails.
fn failing(rt: &impl Abort, alloc: Global, call: u64, row: &Row<'_>) {
    let ran = run_failing(rt, alloc, call, row);
    assert!(rt; ran.is_ok(), "no memory for {} at {call}", row.words);
}

// `solo` fetches three times, asks for one store and says once; a sixth call isn't made. `stats` fetches and says once. A
// warning that fails changes no status.
fn failing_calls(rt: &impl Abort, alloc: Global) {
    let stats = "stats --source s";
    let costs = b"worker 0 instructions 4 pages 1 needs 1 reads 0 writes 0\n";
    for call in 0..5 {
        let refused = row_of(SOLO, SUM, Status::Desk, b"", DESK_FAULT);
        failing(rt, alloc, call, &refused);
    }
    failing(rt, alloc, 5, &row_of(SOLO, SUM, Status::Ok, b"44\n", b""));
    for call in 0..2 {
        let refused = row_of(stats, SUM, Status::Desk, b"", DESK_FAULT);
        failing(rt, alloc, call, &refused);
    }
    failing(rt, alloc, 2, &row_of(stats, SUM, Status::Ok, costs, b""));
    let unknown = row_of(SOLO, b"output y;", Status::Language, b"", b"");
    failing(rt, alloc, 1, &unknown);
    failing(rt, alloc, 0, &row_of("solo", SUM, Status::Words, b"", b""));
}

fn missing_files(rt: &impl Abort, alloc: Global) {
    for line in [
        "solo --source missing --garbler g --evaluator e",
        "solo --source s --garbler missing --evaluator e",
        "solo --source s --garbler g --evaluator missing",
        "stats --source missing",
    ] {
        refused(
            rt,
            alloc,
            line,
            SUM,
            b"200",
            b"100",
            Status::Desk,
            DESK_FAULT,
        );
    }
}

// Of what is said, and of what is warned, there is what fits.
fn too_little_room(rt: &impl Abort, alloc: Global) -> Result<(), Memory> {
    let row = row_of(SOLO, SUM, Status::Desk, b"44", b"ma");
    run_with(rt, alloc, &DeskFails::none(alloc), 2, &row)
}

#[test]
fn the_desk_may_fail(rt: HostRuntime) -> Result<(), Fail> {
    let alloc = rt.alloc();
    failing_calls(&rt, alloc);
    missing_files(&rt, alloc);
    too_little_room(&rt, alloc)?;
    Ok(())
}

fn twice_each(
    rt: &impl Abort,
    alloc: Global,
    desk: &mut MemDesk,
    solo: &[String],
    none: &[String],
) {
    assert_eq!(rt; status_of(alloc, solo, desk), Status::Ok);
    assert_eq!(rt; status_of(alloc, none, desk), Status::Words);
    assert_eq!(rt; status_of(alloc, solo, desk), Status::Ok);
    assert_eq!(rt; status_of(alloc, none, desk), Status::Words);
    assert_eq!(rt; desk.said(), b"44\n44\n".as_slice());
    assert_eq!(rt;
        desk.warned(),
        b"mage: bad words\nmage: bad words\n".as_slice()
    );
}

fn on_one_desk(
    rt: &impl Abort,
    alloc: Global,
    solo: &[String],
    none: &[String],
) -> Result<(), Memory> {
    let mut desk = desk_with(alloc, &DeskFails::none(alloc), 32, SUM, b"200", b"100")?;
    twice_each(rt, alloc, &mut desk, solo, none);
    Ok(())
}

// What the second says stands behind what the first said, and so do their lines.
#[test]
fn commands_follow_one_another(rt: HostRuntime) -> Result<(), Fail> {
    let alloc = rt.alloc();
    let solo = words_of(alloc, SOLO)?;
    let none = words_of(alloc, "solo")?;
    on_one_desk(&rt, alloc, &solo, &none)?;
    Ok(())
}
