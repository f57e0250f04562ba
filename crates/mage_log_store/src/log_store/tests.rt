use super::*;
use std::test::Fail;

const LIES: [Lie; 4] = [
    Lie {
        read: 1,
        byte: 2,
        mask: 1,
    },
    Lie {
        read: 2,
        byte: 0,
        mask: 0,
    },
    Lie {
        read: 3,
        byte: 3,
        mask: 255,
    },
    Lie {
        read: 1,
        byte: 2,
        mask: 2,
    },
];

fn counts(store: &LogStore) -> [u64; 3] {
    let counts = store.counts();
    [counts.reads, counts.writes, counts.faults]
}

// Reads 1, 2 and 3 are lied to: two masks on one byte, a mask of 0, and a byte past the page. The store has two pages and
// seven calls.
#[test]
fn lies_where_it_is_told_to(rt: HostRuntime) -> Result<(), Fail> {
    let alloc = rt.alloc();
    let mut store = LogStore::make(alloc, 2, 3, 7, &LIES)?;
    assert!(rt; store.write(1, b"abc").is_ok());
    let mut into = [b'-'; 3];
    let rows = [
        (1, Some(*b"abc"), [1, 1, 0]),
        (1, Some(*b"ab`"), [2, 1, 0]),
        (1, Some(*b"abc"), [3, 1, 0]),
        (2, None, [3, 1, 1]),
        (1, Some(*b"abc"), [4, 1, 1]),
        (0, Some(*b"\0\0\0"), [5, 1, 1]),
        (1, None, [5, 1, 2]),
    ];
    for (page, want, after) in rows {
        assert!(rt; store.page_bytes == 3);
        let answer = store.read(page, &mut into).ok().map(|_| into);
        assert_eq!(rt; answer, want, "{page}");
        assert_eq!(rt; counts(&store), after, "{page}");
    }
    Ok(())
}
