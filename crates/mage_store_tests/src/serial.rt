// A serial port over stores that go well, that fail once, and whose counts are full.
use crate::full_store::FullStore;
use crate::{Went, serial_over, went_through};
use mage_base::{MemStore, Memory};
use mage_port::PortWait;
use std::alloc::Global;
use std::test::Fail;

// A page through a port over a store in memory, of whose calls this one fails.
fn through(alloc: Global, failing: u64) -> Result<(Went, Vec<u8>), Memory> {
    let store = MemStore::make(alloc, 2, 3, &[failing])?;
    let mut port = serial_over(alloc, 3, store)?;
    went_through(alloc, &mut port, b"abc")
}

fn through_full(alloc: Global) -> Result<(Went, Vec<u8>), Memory> {
    let mut port = serial_over(alloc, 3, FullStore { faults: 0 })?;
    went_through(alloc, &mut port, b"abc")
}

#[test]
fn brings_pages_back_and_fails_where_its_store_does(rt: HostRuntime) -> Result<(), Fail> {
    let failed = Err(PortWait::Failed);
    let wanted = [
        Went::NotWritten(PortWait::Failed, failed),
        Went::NotRead(PortWait::Failed, failed),
        Went::Back,
    ];
    for (failing, want) in wanted.iter().enumerate() {
        let (went, _) = through(rt.alloc(), failing as u64)?;
        assert_eq!(rt; went, *want, "{failing}");
    }
    let (went, _) = through_full(rt.alloc())?;
    assert_eq!(rt; went, Went::NotWritten(PortWait::Failed, failed));
    let (_, into) = through(rt.alloc(), 2)?;
    assert_eq!(rt; into.as_slice(), b"abc".as_slice());
    Ok(())
}
