// Calls of a desk that are listed to fail. They are numbered over all kinds together.
use crate::calls::{desk_with, fetch_by};
use mage_base::{Desk, DeskFails, MemDesk, Memory};
use std::alloc::Global;
use std::test::Fail;

#[derive(Clone, Copy, Debug, PartialEq, Eq)]
enum Call {
    Fetch,
    OpenIn,
    OpenOut,
    CloseOut,
    Store,
    Say,
    Warn,
}

const CALLS: [Call; 7] = [
    Call::Fetch,
    Call::OpenIn,
    Call::OpenOut,
    Call::CloseOut,
    Call::Store,
    Call::Say,
    Call::Warn,
];

fn opens_in<D: Desk>(desk: &mut D, alloc: Global) -> bool {
    match desk.open_in(alloc, "plan") {
        Ok(source) => {
            desk.close_in("plan", source);
            true
        }
        Err(_) => false,
    }
}

// Which call on the way of writing a file failed.
fn failure_of_writing<D: Desk>(desk: &mut D, alloc: Global) -> Option<Call> {
    match desk.open_out(alloc, "out", 2) {
        Ok(sink) => desk.close_out("out", sink).err().map(|_| Call::CloseOut),
        Err(_) => Some(Call::OpenOut),
    }
}

fn hands_a_store<D: Desk>(desk: &mut D, alloc: Global) -> bool {
    match desk.store(alloc, 0, 0, 1, 2) {
        Ok(store) => {
            desk.give_store(0, 0, store);
            true
        }
        Err(_) => false,
    }
}

// The first call that fails, each kind being called once in the order of `CALLS`.
fn first_failure<D: Desk>(desk: &mut D, alloc: Global) -> Option<Call> {
    if fetch_by(desk, alloc, "plan").is_err() {
        return Some(Call::Fetch);
    }
    if !opens_in(desk, alloc) {
        return Some(Call::OpenIn);
    }
    let failed = failure_of_writing(desk, alloc);
    if failed.is_some() {
        return failed;
    }
    if !hands_a_store(desk, alloc) {
        return Some(Call::Store);
    }
    if desk.say(b"x").is_err() {
        return Some(Call::Say);
    }
    desk.warn(b"y").err().map(|_| Call::Warn)
}

fn desk_failing_at(alloc: Global, listed: u64) -> Result<MemDesk, Memory> {
    let mut fails = DeskFails::none(alloc);
    fails.desk.push(listed)?;
    desk_with(alloc, &fails)
}

// The first failures of two rounds of calls.
fn failures(alloc: Global, listed: u64) -> Result<[Option<Call>; 2], Memory> {
    let mut desk = desk_failing_at(alloc, listed)?;
    let first = first_failure(&mut desk, alloc);
    Ok([first, first_failure(&mut desk, alloc)])
}

#[test]
fn each_call_fails_where_listed(rt: HostRuntime) -> Result<(), Fail> {
    for (listed, call) in CALLS.iter().enumerate() {
        let want = [Some(*call), None];
        assert_eq!(rt; failures(rt.alloc(), listed as u64)?, want);
    }
    Ok(())
}
