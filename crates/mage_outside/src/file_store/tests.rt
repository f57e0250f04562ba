use super::*;
use crate::made_up::{MadeUpFile, Step};
use std::io::ErrorKind;
use std::process::Abort;
use std::test::Fail;

type Pages = FileStore<MadeUpFile>;

// Reads a page of three bytes.
fn reads(rt: &impl Abort, store: &mut Pages, page: u32, want: Option<&str>) {
    let mut into = [b'-'; 3];
    assert!(rt; store.page_bytes == 3);
    assert_eq!(rt;
        store.read(page, &mut into).is_ok(),
        want.is_some(),
        "{page}"
    );
    if let Some(text) = want {
        assert_eq!(rt; into.as_slice(), text.as_bytes(), "{page}");
    }
}

// Writes a page of three equal bytes.
fn writes(rt: &impl Abort, store: &mut Pages, page: u32, byte: u8, well: bool) {
    assert!(rt; store.page_bytes == 3);
    assert_eq!(rt;
        store.write(page, &[byte; 3]).is_ok(),
        well,
        "{page} {byte}"
    );
}

fn counts(rt: &impl Abort, store: &Pages, reads: u64, writes: u64, faults: u64) {
    let want = StoreCounts {
        reads,
        writes,
        faults,
    };
    assert_eq!(rt; store.counts(), want);
}

#[test]
fn keeps_pages(rt: HostRuntime) -> Result<(), Fail> {
    let alloc = rt.alloc();
    let steps = [
        Step::Moves(1),
        Step::Interrupted,
        Step::Moves(2),
        Step::Fails(ErrorKind::StorageFull),
        Step::Moves(2),
        Step::Fails(ErrorKind::Other),
    ];
    let file = MadeUpFile::make(alloc, b"", &steps)?;
    let mut store = FileStore::new(file, String::from_str(alloc, "pages")?, 3);
    writes(&rt, &mut store, 1, b'b', true);
    writes(&rt, &mut store, 2, b'c', false);
    reads(&rt, &mut store, 1, None);
    reads(&rt, &mut store, 1, Some("bbb"));
    reads(&rt, &mut store, 0, Some("\0\0\0"));
    reads(&rt, &mut store, 7, Some("\0\0\0"));
    counts(&rt, &store, 3, 1, 2);
    Ok(())
}

#[test]
fn fails_at_the_top_of_its_count(rt: HostRuntime) -> Result<(), Fail> {
    let alloc = rt.alloc();
    let top = u64::MAX;
    let file = MadeUpFile::make(alloc, b"", &[])?;
    let mut store = FileStore::new(file, String::from_str(alloc, "pages")?, 3);
    store.reads = top;
    store.faults = top - 1;
    reads(&rt, &mut store, 0, None);
    writes(&rt, &mut store, 0, b'a', true);
    store.writes = top;
    writes(&rt, &mut store, 0, b'b', false);
    store.reads = 0;
    reads(&rt, &mut store, 0, Some("aaa"));
    counts(&rt, &store, 1, top, top);
    Ok(())
}
