// Desks in memory, and what they hold.
use mage_base::{Desk, DeskFails, MemDesk, Memory};
use std::alloc::Global;

// A desk without a file, of which these calls fail.
pub(crate) fn desk_failing_at(alloc: Global, calls: &[u64]) -> Result<MemDesk, Memory> {
    let mut fails = DeskFails::none(alloc);
    for call in calls {
        fails.desk.push(*call)?;
    }
    MemDesk::make(alloc, 16, &fails)
}

// Whether there is a file of this name with these bytes.
pub(crate) fn holds<D: Desk>(desk: &mut D, alloc: Global, name: &str, bytes: &[u8]) -> bool {
    match desk.fetch(alloc, name, 100) {
        Ok(found) => found.as_slice() == bytes,
        Err(_) => false,
    }
}

// Puts the files of two workers in, of two bytes each.
pub(crate) fn add_both(desk: &mut MemDesk) -> Result<(), Memory> {
    desk.add("in.0", b"pq")?;
    desk.add("in.1", b"rs")
}
