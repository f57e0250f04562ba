// What the plans of small sources cost, by hand from the rules of placement and replacement.
ghost use Rattle.std.specs.Prelude.{◌≤◌};
ghost use Rattle.mage_instr.specs.Limits.{AreInRange};

use crate::{PlanFault, WorkerStats, load, plans_fail_as_costs, reads_are_least, summary};
use mage_instr::{Limits, Tight};
use mage_lex::{LangFault, LangKind};
use std::alloc::Global;
use std::test::Fail;

// Three values on a page each, of which the first two are handed out.
const THREE_PAGES: &str =
    "input garbler a: u64; input garbler b: u64; input garbler c: u64; output a; output b;";

// Two instructions whose values share a page or need two.
const TWO_AT_ONCE: &str =
    "input garbler a: u8; input garbler b: u64; let c = a + a; let d = b ^ b; output c; output d;";

// An instruction with four values, each on a page of its own.
const FOUR_AT_ONCE: &str =
    "input garbler c: u1; input garbler a: u64; input garbler b: u64; output mux(c, a, b);";

// Limits with pages of 64 wires.
fn limits(frames: u32, buffer: u16) -> Limits
    requires frames { (1 ≤ frames) × (frames ≤ 64) }
    requires buffer { buffer ≤ 64 }
    ensures { AreInRange result }
{
    Limits {
        page: 64,
        frames,
        buffer,
        ahead: 64,
    }
}

// Whether a source has one worker, whose plan costs so much.
fn costs(alloc: Global, text: &str, limits: Limits, wanted: WorkerStats) -> bool
    requires { AreInRange limits }
{
    match summary(alloc, text.as_bytes(), limits) {
        Ok(all) => match all.as_slice() {
            [own] => *own == wanted,
            _ => false,
        },
        Err(_) => false,
    }
}

// Whether there is no plan for a source, for this reason.
fn is_refused(alloc: Global, text: &str, limits: Limits, wanted: PlanFault) -> bool
    requires { AreInRange limits }
{
    match summary(alloc, text.as_bytes(), limits) {
        Ok(_) => false,
        Err(fault) => fault == wanted,
    }
}

fn stats(instructions: u32, pages: u32, needs: u8, reads: u64, writes: u64) -> WorkerStats {
    WorkerStats {
        instructions,
        pages,
        needs,
        reads,
        writes,
    }
}

fn too_few_frames(instr: u32, needs: u8, has: u32) -> PlanFault {
    PlanFault::Tight {
        worker: 0,
        tight: Tight::Frames { instr, needs, has },
    }
}

fn no_slot(instr: u32) -> PlanFault {
    PlanFault::Tight {
        worker: 0,
        tight: Tight::Buffer { instr },
    }
}

fn at(kind: LangKind, line: u32, column: u32) -> PlanFault {
    PlanFault::Lang(LangFault::At { kind, line, column })
}

// In two frames page 1 leaves for the third value, and comes back; in three all stay.
#[test]
fn one_page_comes_back(rt: HostRuntime) -> Result<(), Fail> {
    let alloc = rt.alloc();
    let two = costs(alloc, THREE_PAGES, limits(2, 1), stats(5, 3, 1, 1, 1));
    let three = costs(alloc, THREE_PAGES, limits(3, 0), stats(5, 3, 1, 0, 0));
    let none = is_refused(alloc, THREE_PAGES, limits(2, 0), no_slot(2));
    assert!(rt; two && three && none);
    Ok(())
}

// The fourth instruction needs two pages; too few frames are told before the buffer.
#[test]
fn two_pages_at_once(rt: HostRuntime) -> Result<(), Fail> {
    let alloc = rt.alloc();
    let two = costs(alloc, TWO_AT_ONCE, limits(2, 8), stats(6, 3, 2, 1, 1));
    let one = is_refused(alloc, TWO_AT_ONCE, limits(1, 8), too_few_frames(3, 2, 1));
    let none = is_refused(alloc, TWO_AT_ONCE, limits(1, 0), too_few_frames(3, 2, 1));
    assert!(rt; two && one && none);
    Ok(())
}

// Three values are taken, and the result needs a page of its own beside theirs.
#[test]
fn four_pages_at_once(rt: HostRuntime) -> Result<(), Fail> {
    let alloc = rt.alloc();
    let four = costs(alloc, FOUR_AT_ONCE, limits(4, 8), stats(5, 4, 4, 0, 0));
    let three = is_refused(alloc, FOUR_AT_ONCE, limits(3, 8), too_few_frames(3, 4, 3));
    assert!(rt; four && three);
    Ok(())
}

#[test]
fn an_empty_source_costs_nothing(rt: HostRuntime) -> Result<(), Fail> {
    let nothing = costs(rt.alloc(), "", limits(1, 0), stats(0, 0, 0, 0, 0));
    assert!(rt; nothing);
    Ok(())
}

// A fault of the bytes, of the tokens and of the statements.
#[test]
fn a_fault_of_the_language(rt: HostRuntime) -> Result<(), Fail> {
    let alloc = rt.alloc();
    let bytes = is_refused(
        alloc,
        "output y; .",
        limits(1, 0),
        at(LangKind::BadByte, 1, 11),
    );
    let tokens = is_refused(alloc, "output y", limits(1, 0), at(LangKind::Syntax, 1, 9));
    let name = is_refused(
        alloc,
        "output y;",
        limits(1, 0),
        at(LangKind::UnknownName, 1, 8),
    );
    assert!(rt; bytes && tokens && name);
    Ok(())
}

// What `load` hands out is a program for one worker.
#[test]
fn a_source_is_loaded(rt: HostRuntime) -> Result<(), Fail> {
    reads_are_least();
    plans_fail_as_costs();
    let loaded = load(rt.alloc(), TWO_AT_ONCE.as_bytes())
        .ok()
        .ok_or("not loaded")?;
    assert!(rt; loaded.program.workers.len() == 1 && loaded.source.body().len() == 6);
    Ok(())
}
