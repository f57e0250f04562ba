// Stores that are lent and given back.
use crate::desks::desk_failing_at;
use mage_base::{Desk, DeskError, Memory};
use mage_lending::{StoreOrder, give_stores_back, lend_stores};
use std::alloc::Global;
use std::test::Fail;

const ORDERS: [StoreOrder; 2] = [
    StoreOrder {
        pages: 1,
        page_bytes: 2,
    },
    StoreOrder {
        pages: 3,
        page_bytes: 2,
    },
];

// How many stores the desk lends, which are given back.
fn lends<D: Desk>(desk: &mut D, alloc: Global) -> Result<usize, DeskError> {
    match lend_stores(alloc, desk, &ORDERS) {
        Ok(stores) => {
            let count = stores.len();
            give_stores_back(desk, stores);
            Ok(count)
        }
        Err(error) => Err(error),
    }
}

// What two rounds of lending answer where these calls fail.
fn rounds(alloc: Global, calls: &[u64]) -> Result<[Result<usize, DeskError>; 2], Memory> {
    let mut desk = desk_failing_at(alloc, calls)?;
    let first = lends(&mut desk, alloc);
    Ok([first, lends(&mut desk, alloc)])
}

#[test]
fn each_worker_gets_a_store(rt: HostRuntime) -> Result<(), Fail> {
    assert_eq!(rt; rounds(rt.alloc(), &[])?, [Ok(2), Ok(2)]);
    Ok(())
}

#[test]
fn a_store_that_fails_is_a_fault(rt: HostRuntime) -> Result<(), Fail> {
    assert_eq!(rt; rounds(rt.alloc(), &[0])?, [Err(DeskError::Fault), Ok(2)]);
    assert_eq!(rt; rounds(rt.alloc(), &[1])?, [Err(DeskError::Fault), Ok(2)]);
    assert_eq!(rt; rounds(rt.alloc(), &[2])?, [Ok(2), Err(DeskError::Fault)]);
    Ok(())
}
