// A desk in memory: what its calls give, and where they fail.
ghost use Rattle.std.specs.Prelude.{◌≡◌};

use super::*;
use crate::{Items, Sink, Source, Store};
use std::process::Abort;
use std::test::Fail;

// A desk with two files and room for four bytes to be said.
fn desk_with(alloc: Global, fails: &DeskFails) -> Result<MemDesk, Memory> {
    let mut desk = MemDesk::make(alloc, 4, fails)?;
    desk.add("plan", b"abc")?;
    desk.add("other", b"xy")?;
    Ok(desk)
}

// These call through the traits, as the crates above do.

// How many bytes a fetch gives.
fn fetch_by<D: Desk>(desk: &mut D, alloc: Global, name: &str) -> Result<usize, DeskError> {
    match desk.fetch(alloc, name, 4) {
        Ok(bytes) => Ok(bytes.len()),
        Err(error) => Err(error),
    }
}

// Opens a source, takes once and closes it. Which of the calls failed.
fn take_by<D: Desk>(desk: &mut D, alloc: Global, name: &str) -> &'static str {
    let Ok(mut source) = desk.open_in(alloc, name) else {
        return "open_in";
    };
    let taken = source.take(&mut [0; 4]).is_ok();
    desk.close_in(name, source);
    if taken { "" } else { "take" }
}

// Opens a sink, puts three bytes one by one and closes it. Which of the calls on the desk failed.
fn put_by<D: Desk>(desk: &mut D, alloc: Global, name: &str) -> &'static str {
    let Ok(mut sink) = desk.open_out(alloc, name, 2) else {
        return "open_out";
    };
    for byte in [b'x', b'y', b'z'] {
        let _ = sink.put(&[byte]);
    }
    let closed = desk.close_out(name, sink).is_ok();
    if closed { "" } else { "close_out" }
}

fn use_store<S: Store>(store: &mut S)
    requires { (S.tells store.old).page_bytes ≡ 2 }
{
    let mut page = [0; 2];
    let _ = store.write(0, &page);
    let _ = store.read(0, &mut page);
    let _ = store.read(0, &mut page);
}

// Whether a store could be had; its only page is written once and read twice.
fn store_by<D: Desk>(desk: &mut D, alloc: Global, worker: u16, shard: u16) -> bool {
    let Ok(mut store) = desk.store(alloc, worker, shard, 1, 2) else {
        return false;
    };
    use_store(&mut store);
    desk.give_store(worker, shard, store);
    true
}

// The first call of the source `plan`, the second of the sink `out` and the first of a store are to fail.
fn failing_objects(alloc: Global) -> Result<DeskFails, Memory> {
    let mut fails = DeskFails::none(alloc);
    let first = Items::from_slice(alloc, &[0])?;
    fails.stores.push((2, 1, first))?;
    let second = Items::from_slice(alloc, &[1])?;
    let out = String::from_str(alloc, "out")?;
    fails.outputs.push((out, second))?;
    let first = Items::from_slice(alloc, &[0])?;
    let plan = String::from_str(alloc, "plan")?;
    fails.inputs.push((plan, first))?;
    Ok(fails)
}

fn faults(rt: &impl Abort, desk: &MemDesk, faults: u64) {
    assert_eq!(rt; desk.faults, faults);
}

// Uses a store of worker 2, and looks at the sums of that worker.
fn stores(rt: &impl Abort, desk: &mut MemDesk, alloc: Global, shard: u16, reads: u64, writes: u64) {
    assert!(rt; store_by(desk, alloc, 2, shard), "{shard}");
    assert_eq!(rt; desk.reads(2), reads, "{shard}");
    assert_eq!(rt; desk.writes(2), writes, "{shard}");
}

#[test]
fn hands_out_what_fails_where_listed(rt: HostRuntime) -> Result<(), Fail> {
    let alloc = rt.alloc();
    let mut desk = desk_with(alloc, &failing_objects(alloc)?)?;
    assert_eq!(rt; take_by(&mut desk, alloc, "other"), "");
    faults(&rt, &desk, 0);
    assert_eq!(rt; take_by(&mut desk, alloc, "plan"), "take");
    faults(&rt, &desk, 1);
    assert_eq!(rt; put_by(&mut desk, alloc, "out"), "");
    faults(&rt, &desk, 2);
    assert_eq!(rt; fetch_by(&mut desk, alloc, "out"), Ok(2));
    stores(&rt, &mut desk, alloc, 1, 2, 0);
    stores(&rt, &mut desk, alloc, 0, 4, 1);
    Ok(())
}

fn set_faults(desk: &mut MemDesk, faults: u64) {
    desk.faults = faults;
}

// Two faults more, where the count is one below its greatest value.
fn fails_twice(rt: &impl Abort, desk: &mut MemDesk, alloc: Global) {
    let missing = Err(DeskError::Fault);
    assert_eq!(rt; fetch_by(desk, alloc, "missing"), missing);
    faults(rt, desk, u64::MAX);
    assert_eq!(rt; fetch_by(desk, alloc, "missing"), missing);
    faults(rt, desk, u64::MAX);
}

#[test]
fn faults_stay_at_their_greatest_value(rt: HostRuntime) -> Result<(), Fail> {
    let mut desk = desk_with(rt.alloc(), &DeskFails::none(rt.alloc()))?;
    set_faults(&mut desk, u64::MAX - 1);
    fails_twice(&rt, &mut desk, rt.alloc());
    Ok(())
}
