// `solo` over stores of the desk: how often their pages are moved, stores that fail, and one that lies.
use crate::cases::{desk_with, status_of, words_of};
use mage_base::{DeskFails, MemDesk, Memory};
use mage_log_store::{Lie, LogDesk};
use mage_planner::{Status, planner};
use sqlite_items::Items;
use std::alloc::Global;
use std::process::Abort;
use std::test::Fail;

// Three values on a page each, of which the first two are put out.
const THREE: &[u8] =
    b"input garbler a: u64; input garbler b: u64; input garbler c: u64; output a; output b;";

// Two frames and one slot: the page of the second leaves for that of the third, and comes back.
const WORDS: &str = "solo --source s --garbler g --page 64 --frames 2 --buffer 1";

const GARBLER: &[u8] = b"7\n8\n9\n";

// The page that was written has the bits of 8, lowest first, a byte each; what came back has none. The digests are
// hashlib's.
const DAMAGED: &[u8] = b"mage: damaged: worker 0 page 0 \
kept 18ae4ccbda9538839d79bb18ca09e23e24ae8c1550f56cbb3d84b05331fff401 \
found f5a5fd42d16a20302798ef6ed309979b43003d2320d9f0e8ea9831a92759fb4b\n";

fn moves_pages(rt: &impl Abort, alloc: Global) -> Result<(), Memory> {
    let words = words_of(alloc, WORDS)?;
    let mut desk = desk_with(alloc, &DeskFails::none(alloc), 300, THREE, GARBLER, b"")?;
    let status = status_of(alloc, &words, &mut desk);
    assert_eq!(rt; status, Status::Ok);
    assert_eq!(rt; desk.said(), b"7\n8\n".as_slice());
    assert_eq!(rt; desk.reads(0), 1);
    assert_eq!(rt; desk.writes(0), 1);
    assert_eq!(rt; desk.reads(1), 0);
    Ok(())
}

// A desk of which call number `call` of worker 0's store fails.
fn breaking(alloc: Global, call: u64) -> Result<MemDesk, Memory> {
    let mut calls = Items::new(alloc);
    calls.push(call)?;
    let mut fails = DeskFails::none(alloc);
    fails.stores.push((0, 0, calls))?;
    desk_with(alloc, &fails, 300, THREE, GARBLER, b"")
}

fn breaks(
    rt: &impl Abort,
    alloc: Global,
    call: u64,
    wanted: Status,
    said: &[u8],
    warned: &[u8],
) -> Result<(), Memory> {
    let words = words_of(alloc, WORDS)?;
    let mut desk = breaking(alloc, call)?;
    let status = status_of(alloc, &words, &mut desk);
    assert_eq!(rt; status, wanted, "{call}");
    assert_eq!(rt; desk.said(), said, "{call}");
    assert_eq!(rt; desk.warned(), warned, "{call}");
    Ok(())
}

// What `planner` answers over a desk whose stores tell their logs.
fn status_over(alloc: Global, words: &[String], desk: &mut LogDesk) -> Status {
    planner(alloc, words, desk)
}

// A desk whose stores xor byte 3 of the first page that is read with a mask.
fn lying(alloc: Global, mask: u8) -> Result<LogDesk, Memory> {
    let inner = desk_with(alloc, &DeskFails::none(alloc), 300, THREE, GARBLER, b"")?;
    let lie = Lie {
        read: 0,
        byte: 3,
        mask,
    };
    LogDesk::make(alloc, inner, 2, &[lie])
}

fn lies(
    rt: &impl Abort,
    alloc: Global,
    mask: u8,
    wanted: Status,
    said: &[u8],
    warned: &[u8],
) -> Result<(), Memory> {
    let words = words_of(alloc, WORDS)?;
    let mut desk = lying(alloc, mask)?;
    let status = status_over(alloc, &words, &mut desk);
    assert_eq!(rt; status, wanted, "{mask}");
    assert_eq!(rt; desk.said(), said, "{mask}");
    assert_eq!(rt; desk.warned(), warned, "{mask}");
    Ok(())
}

#[test]
fn pages_are_moved(rt: HostRuntime) -> Result<(), Fail> {
    moves_pages(&rt, rt.alloc())?;
    Ok(())
}

#[test]
fn stores_may_fail(rt: HostRuntime) -> Result<(), Fail> {
    let alloc = rt.alloc();
    let broken = b"mage: store fault: worker 0\n";
    breaks(&rt, alloc, 0, Status::Store, b"", broken)?;
    breaks(&rt, alloc, 1, Status::Store, b"", broken)?;
    breaks(&rt, alloc, 2, Status::Ok, b"7\n8\n", b"")?;
    Ok(())
}

#[test]
fn stores_may_lie(rt: HostRuntime) -> Result<(), Fail> {
    let alloc = rt.alloc();
    lies(&rt, alloc, 1, Status::Damaged, b"", DAMAGED)?;
    lies(&rt, alloc, 0, Status::Ok, b"7\n8\n", b"")?;
    Ok(())
}
