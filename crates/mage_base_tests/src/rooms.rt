// Files that are missing or too long, and rooms that are too small.
use crate::calls::{desk_with, fetch_by};
use mage_base::{Desk, DeskError, DeskFails, MemDesk, Memory};
use std::alloc::Global;
use std::process::Abort;
use std::test::Fail;

fn fetches(
    rt: &impl Abort,
    desk: &mut MemDesk,
    alloc: Global,
    name: &str,
    want: Result<usize, DeskError>,
) {
    assert_eq!(rt; fetch_by(desk, alloc, name), want, "{name}");
}

fn says(rt: &impl Abort, desk: &mut MemDesk, bytes: &str, well: bool, said: &str) {
    assert_eq!(rt; say_by(desk, bytes.as_bytes()), well, "{bytes}");
    assert_eq!(rt; desk.said(), said.as_bytes(), "{bytes}");
}

fn warns(rt: &impl Abort, desk: &mut MemDesk, bytes: &str, well: bool, warned: &str) {
    assert_eq!(rt; warn_by(desk, bytes.as_bytes()), well, "{bytes}");
    assert_eq!(rt; desk.warned(), warned.as_bytes(), "{bytes}");
}

fn say_by<D: Desk>(desk: &mut D, bytes: &[u8]) -> bool {
    desk.say(bytes).is_ok()
}

fn warn_by<D: Desk>(desk: &mut D, bytes: &[u8]) -> bool {
    desk.warn(bytes).is_ok()
}

fn in_small_rooms(rt: &impl Abort, desk: &mut MemDesk, alloc: Global) {
    fetches(rt, desk, alloc, "plan", Ok(3));
    fetches(rt, desk, alloc, "long", Err(DeskError::TooLong));
    fetches(rt, desk, alloc, "Plan", Err(DeskError::Fault));
    says(rt, desk, "abcd", true, "abcd");
    says(rt, desk, "e", false, "abcd");
    says(rt, desk, "", true, "abcd");
    warns(rt, desk, "fg", true, "fg");
    warns(rt, desk, "hij", false, "fghi");
}

fn steady_desk(alloc: Global) -> Result<MemDesk, Memory> {
    desk_with(alloc, &DeskFails::none(alloc))
}

#[test]
fn a_file_may_be_missing_and_a_room_too_small(rt: HostRuntime) -> Result<(), Fail> {
    let mut desk = steady_desk(rt.alloc())?;
    in_small_rooms(&rt, &mut desk, rt.alloc());
    Ok(())
}
