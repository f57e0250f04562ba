// A store in memory keeps its pages, and counts.
use super::*;
use std::process::Abort;
use std::test::Fail;

// Reads a page of three bytes.
fn reads(rt: &impl Abort, store: &mut MemStore, page: u32, want: Option<&str>) {
    let mut into = [b'-'; 3];
    assert!(rt; store.page_bytes == 3);
    let well = store.read(page, &mut into).is_ok();
    assert_eq!(rt; well, want.is_some(), "{page}");
    assert_eq!(rt; into.as_slice(), want.unwrap_or("---").as_bytes(), "{page}");
}

// Writes a page of three equal bytes.
fn writes(rt: &impl Abort, store: &mut MemStore, page: u32, byte: u8, well: bool) {
    assert!(rt; store.page_bytes == 3);
    assert_eq!(rt;
        store.write(page, &[byte; 3]).is_ok(),
        well,
        "{page} {byte}"
    );
}

fn counts(rt: &impl Abort, store: &MemStore, reads: u64, writes: u64, faults: u64) {
    let want = StoreCounts {
        reads,
        writes,
        faults,
    };
    assert_eq!(rt; store.counts(), want);
}

// Of two pages; the calls with the numbers 3 and 4 are to fail.
#[test]
fn keeps_pages_and_fails_where_listed(rt: HostRuntime) -> Result<(), Fail> {
    let mut store = MemStore::make(rt.alloc(), 2, 3, &[3, 4])?;
    reads(&rt, &mut store, 1, Some("\0\0\0"));
    writes(&rt, &mut store, 1, b'b', true);
    writes(&rt, &mut store, 0, b'a', true);
    writes(&rt, &mut store, 1, b'c', false);
    reads(&rt, &mut store, 1, None);
    reads(&rt, &mut store, 1, Some("bbb"));
    counts(&rt, &store, 2, 2, 2);
    reads(&rt, &mut store, 2, None);
    writes(&rt, &mut store, 2, b'c', false);
    reads(&rt, &mut store, 0, Some("aaa"));
    counts(&rt, &store, 3, 2, 4);
    Ok(())
}

#[test]
fn fails_at_the_top_of_its_count(rt: HostRuntime) -> Result<(), Fail> {
    let top = u64::MAX;
    let mut store = MemStore::make(rt.alloc(), 1, 3, &[])?;
    store.reads = top - 1;
    reads(&rt, &mut store, 0, Some("\0\0\0"));
    reads(&rt, &mut store, 0, None);
    writes(&rt, &mut store, 0, b'a', true);
    counts(&rt, &store, top, 1, 1);
    store.reads = 0;
    store.writes = top;
    store.faults = top;
    writes(&rt, &mut store, 0, b'b', false);
    reads(&rt, &mut store, 0, Some("aaa"));
    counts(&rt, &store, 1, top, top);
    Ok(())
}
