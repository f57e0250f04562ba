// A desk in memory, and a fetch through the trait.
use mage_base::{Desk, DeskError, DeskFails, MemDesk, Memory};
use std::alloc::Global;

fn add_files(desk: &mut MemDesk) -> Result<(), Memory> {
    desk.add("plan", b"abc")?;
    desk.add("long", b"abcde")
}

/// A desk with two files, and room for four bytes to be said and as many to be warned.
pub(crate) fn desk_with(alloc: Global, fails: &DeskFails) -> Result<MemDesk, Memory> {
    let mut desk = MemDesk::make(alloc, 4, fails)?;
    match add_files(&mut desk) {
        Ok(()) => Ok(desk),
        Err(Memory) => Err(Memory),
    }
}

/// How many bytes a fetch of at most four gives.
pub(crate) fn fetch_by<D: Desk>(
    desk: &mut D,
    alloc: Global,
    name: &str,
) -> Result<usize, DeskError> {
    match desk.fetch(alloc, name, 4) {
        Ok(bytes) => Ok(bytes.len()),
        Err(error) => Err(error),
    }
}
