ghost use Rattle.std.specs.Prelude.{◌≡◌};

use super::*;
use crate::made_up::MadeUpFiles;
use mage_base::{Sink, Source, Store};
use std::process::Abort;
use std::test::Fail;

type MadeUpDesk<'a> = RealDesk<'a, MadeUpFiles, MadeUpFiles>;

// How many bytes a fetch gives.
fn fetch_by<D: Desk>(
    desk: &mut D,
    alloc: Global,
    name: &str,
    limit: u64,
) -> Result<usize, DeskError> {
    match desk.fetch(alloc, name, limit) {
        Ok(bytes) => Ok(bytes.len()),
        Err(error) => Err(error),
    }
}

// How many bytes the first take gives, or why there is none.
fn take_by<D: Desk>(desk: &mut D, alloc: Global, name: &str) -> Result<usize, DeskError> {
    let mut source = desk.open_in(alloc, name)?;
    let taken = source.take(&mut [0; 9]);
    desk.close_in(name, source);
    match taken {
        Ok(count) => Ok(count),
        Err(_) => Err(DeskError::Fault),
    }
}

// Whether a byte could be written.
fn write_by<D: Desk>(desk: &mut D, alloc: Global, name: &str) -> Result<bool, DeskError> {
    let mut sink = desk.open_out(alloc, name, 0)?;
    let _ = sink.put(b"x");
    Ok(desk.close_out(name, sink).is_ok())
}

fn faults(rt: &impl Abort, desk: &MadeUpDesk<'_>, faults: u64) {
    assert_eq!(rt; desk.faults, faults);
}

#[test]
fn counts_faults_and_no_want_of_memory(rt: HostRuntime) -> Result<(), Fail> {
    let alloc = rt.alloc();
    let files = MadeUpFiles {
        alloc,
        is_open: true,
    };
    let errors = MadeUpFiles {
        alloc,
        is_open: false,
    };
    let mut desk = RealDesk::new(&files, alloc, errors);
    assert_eq!(rt; fetch_by(&mut desk, alloc, "short", 5), Ok(5));
    assert_eq!(rt;
        fetch_by(&mut desk, alloc, "short", 4),
        Err(DeskError::TooLong)
    );
    assert_eq!(rt;
        fetch_by(&mut desk, alloc, "large", 4),
        Err(DeskError::Memory)
    );
    assert_eq!(rt; take_by(&mut desk, alloc, "large"), Err(DeskError::Memory));
    assert_eq!(rt; take_by(&mut desk, alloc, "short"), Ok(2));
    assert_eq!(rt; write_by(&mut desk, alloc, "short"), Ok(true));
    faults(&rt, &desk, 0);
    assert_eq!(rt;
        fetch_by(&mut desk, alloc, "missing", 5),
        Err(DeskError::Fault)
    );
    assert_eq!(rt;
        fetch_by(&mut desk, alloc, "folder", 5),
        Err(DeskError::Fault)
    );
    assert_eq!(rt; take_by(&mut desk, alloc, "folder"), Err(DeskError::Fault));
    assert_eq!(rt; write_by(&mut desk, alloc, "folder"), Err(DeskError::Fault));
    assert_eq!(rt; write_by(&mut desk, alloc, "full"), Ok(false));
    faults(&rt, &desk, 5);
    assert!(rt; desk.say(b"x").is_ok());
    assert!(rt; desk.warn(b"x").is_err());
    faults(&rt, &desk, 6);
    Ok(())
}

fn use_store<S: Store>(store: &mut S) -> bool
    requires { (S.tells store.old).page_bytes ≡ 2 }
{
    let mut page = [0; 2];
    let written = store.write(3, b"ab").is_ok();
    let read = store.read(3, &mut page).is_ok();
    written && read && page == *b"ab"
}

// Uses a store; whether its file was there meanwhile.
fn store_by<R: Files, D: Desk>(rt: &R, desk: &mut D, alloc: Global) -> bool {
    let Ok(mut store) = desk.store(alloc, 65535, 7, 4, 2) else {
        return false;
    };
    let used = use_store(&mut store);
    let there = fs::metadata(rt, "mage.65535.7.pages").is_ok();
    desk.give_store(65535, 7, store);
    used && there
}

// In the current folder, over the files of the system.
#[test]
fn keeps_a_store_in_a_file(rt: HostRuntime) -> Result<(), Fail> {
    let alloc = rt.alloc();
    let errors = MadeUpFiles {
        alloc,
        is_open: true,
    };
    let mut desk = RealDesk::new(&rt, alloc, errors);
    assert!(rt; store_by(&rt, &mut desk, alloc));
    assert!(rt; fs::metadata(&rt, "mage.65535.7.pages").is_err());
    assert_eq!(rt; desk.ledger.returned(65535).reads, 1);
    assert_eq!(rt; desk.faults, 0);
    Ok(())
}

fn write_twice<S: Sink>(sink: &mut S) -> bool {
    sink.put(b"ab").is_ok() && sink.put(b"c").is_ok()
}

// Whether a file could be written in two pieces.
fn written_by<D: Desk>(desk: &mut D, alloc: Global) -> bool {
    let Ok(mut sink) = desk.open_out(alloc, "written", 3) else {
        return false;
    };
    let written = write_twice(&mut sink);
    desk.close_out("written", sink).is_ok() && written
}

fn reads_back<D: Desk>(desk: &mut D, alloc: Global, bytes: &[u8]) -> bool {
    match desk.fetch(alloc, "written", 3) {
        Ok(found) => found.as_slice() == bytes,
        Err(_) => false,
    }
}

// In the current folder, over the files of the system.
#[test]
fn reads_a_file_as_it_was_written(rt: HostRuntime) {
    let alloc = rt.alloc();
    let errors = MadeUpFiles {
        alloc,
        is_open: true,
    };
    let mut desk = RealDesk::new(&rt, alloc, errors);
    assert!(rt; written_by(&mut desk, alloc));
    assert!(rt; reads_back(&mut desk, alloc, b"abc"));
    assert_eq!(rt; desk.faults, 0);
}
