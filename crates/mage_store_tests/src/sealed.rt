// A sealed port over stores that answer rightly, falsely and not at all. The digests are another
// program's, of the bytes 0 to 63 and of the same with 2 in place of 3.
use crate::{Went, sealed_over, went_through};
use mage_base::{Damage, Memory};
use mage_log_store::{Lie, LogStore};
use mage_port::PortWait;
use std::alloc::Global;
use std::test::Fail;

const PAGE: [u8; 64] = [
    0, 1, 2, 3, 4, 5, 6, 7, 8, 9, 10, 11, 12, 13, 14, 15, 16, 17, 18, 19, 20, 21, 22, 23, 24, 25,
    26, 27, 28, 29, 30, 31, 32, 33, 34, 35, 36, 37, 38, 39, 40, 41, 42, 43, 44, 45, 46, 47, 48, 49,
    50, 51, 52, 53, 54, 55, 56, 57, 58, 59, 60, 61, 62, 63,
];

const DAMAGE: Damage = Damage {
    page: 1,
    kept: [
        0xfd, 0xea, 0xb9, 0xac, 0xf3, 0x71, 0x03, 0x62, 0xbd, 0x26, 0x58, 0xcd, 0xc9, 0xa2, 0x9e,
        0x8f, 0x9c, 0x75, 0x7f, 0xcf, 0x98, 0x11, 0x60, 0x3a, 0x8c, 0x44, 0x7c, 0xd1, 0xd9, 0x15,
        0x11, 0x08,
    ],
    found: [
        0x07, 0xdb, 0x25, 0x21, 0x88, 0x03, 0xad, 0xcd, 0x04, 0x8c, 0x1b, 0x5b, 0x3f, 0xad, 0xeb,
        0x73, 0x06, 0x2a, 0xce, 0xdf, 0xfc, 0x07, 0x1b, 0x03, 0x43, 0xee, 0x9b, 0x70, 0xe4, 0x4f,
        0x6b, 0xd3,
    ],
};

// A page through a port over a store of so many calls, whose first read is lied about.
fn through(alloc: Global, calls: u64, mask: u8) -> Result<Went, Memory> {
    let lie = Lie {
        read: 0,
        byte: 3,
        mask,
    };
    let store = LogStore::make(alloc, 3, 64, calls, &[lie])?;
    let mut port = sealed_over(alloc, 64, store)?;
    let (went, _) = went_through(alloc, &mut port, &PAGE)?;
    Ok(went)
}

#[test]
fn finds_a_page_that_came_back_otherwise(rt: HostRuntime) -> Result<(), Fail> {
    let failed = Err(PortWait::Failed);
    let damaged = PortWait::Damaged(DAMAGE);
    let rows = [
        (2, 0, Went::Back),
        (2, 1, Went::NotRead(damaged, Err(damaged))),
        (1, 1, Went::NotRead(PortWait::Failed, failed)),
        (0, 1, Went::NotWritten(PortWait::Failed, failed)),
    ];
    for (calls, mask, want) in rows {
        assert_eq!(rt; through(rt.alloc(), calls, mask)?, want, "{calls} {mask}");
    }
    Ok(())
}
