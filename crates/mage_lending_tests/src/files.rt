// The workers' files.
ghost use Rattle.std.specs.Prelude.{◌≤◌, length};

use crate::desks::{add_both, desk_failing_at, holds};
use mage_base::{Desk, DeskError, Memory, Sink, Source};
use mage_lending::{
    WorkerSinks, WorkerSources, close_sinks, close_sources, open_sinks, open_sources,
};
use std::alloc::Global;
use std::test::Fail;

// What became of the files of two workers: whether all was well, and whether each file holds what is wanted of it.
#[derive(Clone, Copy, Debug, PartialEq, Eq)]
struct Written {
    well: bool,
    first: bool,
    second: bool,
}

// Puts three bytes into each sink. One that fails is left as it is.
fn put_all<S: Sink>(sinks: &mut [S]) {
    for sink in sinks.iter_mut() {
        let _ = sink.put(b"abc");
    }
}

// Opens the files of workers with so much room, puts three bytes into each and closes them.
fn write_all<D: Desk>(desk: &mut D, alloc: Global, rooms: &[u64]) -> bool
    requires { length rooms.now ≤ 65535 }
{
    match open_sinks(alloc, desk, "out", rooms) {
        Ok(opened) => {
            let WorkerSinks { names, mut sinks } = opened;
            put_all(sinks.as_mut_slice());
            names.len() == sinks.len() && close_sinks(desk, names.as_slice(), sinks).is_ok()
        }
        Err(_) => false,
    }
}

// The same of two workers, and whether the files then hold these bytes.
fn write_and_look<D: Desk>(
    desk: &mut D,
    alloc: Global,
    rooms: [u64; 2],
    first: &str,
    second: &str,
) -> Written {
    let well = write_all(desk, alloc, &rooms);
    let first = holds(desk, alloc, "out.0", first.as_bytes());
    let second = holds(desk, alloc, "out.1", second.as_bytes());
    Written {
        well,
        first,
        second,
    }
}

// The same on a new desk of which these calls fail.
fn outcome(
    alloc: Global,
    calls: &[u64],
    rooms: [u64; 2],
    first: &str,
    second: &str,
) -> Result<Written, Memory> {
    let mut desk = desk_failing_at(alloc, calls)?;
    Ok(write_and_look(&mut desk, alloc, rooms, first, second))
}

#[test]
fn each_file_is_what_was_put(rt: HostRuntime) -> Result<(), Fail> {
    let want = Written {
        well: true,
        first: true,
        second: true,
    };
    assert_eq!(rt; outcome(rt.alloc(), &[], [3, 3], "abc", "abc")?, want);
    Ok(())
}

#[test]
fn too_little_room_leaves_a_front(rt: HostRuntime) -> Result<(), Fail> {
    let want = Written {
        well: true,
        first: true,
        second: true,
    };
    assert_eq!(rt; outcome(rt.alloc(), &[], [2, 3], "ab", "abc")?, want);
    Ok(())
}

// Calls 0 and 1 open the files, and call 2 closes the first.
#[test]
fn a_file_is_closed_after_one_that_fails(rt: HostRuntime) -> Result<(), Fail> {
    let want = Written {
        well: false,
        first: true,
        second: true,
    };
    assert_eq!(rt; outcome(rt.alloc(), &[2], [3, 3], "", "abc")?, want);
    Ok(())
}

// Call 1 opens the second file, and call 2 closes the first again.
#[test]
fn what_was_opened_is_closed_empty(rt: HostRuntime) -> Result<(), Fail> {
    let want = Written {
        well: false,
        first: true,
        second: false,
    };
    assert_eq!(rt; outcome(rt.alloc(), &[1], [3, 3], "", "")?, want);
    Ok(())
}

// Takes some bytes of each source: how many sources had two.
fn take_all<S: Source>(sources: &mut [S]) -> u32 {
    let mut count = 0u32;
    for source in sources.iter_mut() {
        let mut piece = [0u8; 4];
        if source.take(&mut piece) == Ok(2) {
            count = count.saturating_add(1);
        }
    }
    count
}

// Opens the files of so many workers, takes of each, and closes them: how many files had two bytes.
fn read_all<D: Desk>(desk: &mut D, alloc: Global, workers: u16) -> Result<u32, DeskError> {
    match open_sources(alloc, desk, "in", workers) {
        Ok(opened) => {
            let WorkerSources { names, mut sources } = opened;
            let count = take_all(sources.as_mut_slice());
            if names.len() == sources.len() {
                close_sources(desk, names.as_slice(), sources);
            }
            Ok(count)
        }
        Err(error) => Err(error),
    }
}

// The same on a desk with the files of two workers, of two bytes each.
fn found(alloc: Global, workers: u16) -> Result<Result<u32, DeskError>, Memory> {
    let mut desk = desk_failing_at(alloc, &[])?;
    match add_both(&mut desk) {
        Ok(()) => Ok(read_all(&mut desk, alloc, workers)),
        Err(Memory) => Err(Memory),
    }
}

#[test]
fn each_file_is_read(rt: HostRuntime) -> Result<(), Fail> {
    assert_eq!(rt; found(rt.alloc(), 2)?, Ok(2));
    Ok(())
}

#[test]
fn a_file_that_is_not_there_is_a_fault(rt: HostRuntime) -> Result<(), Fail> {
    assert_eq!(rt; found(rt.alloc(), 3)?, Err(DeskError::Fault));
    Ok(())
}
