// The sums of the counts of stores that were given back.
use mage_base::{Ledger, StoreCounts};
use std::process::Abort;

const TOP: u64 = u64::MAX;

fn counts(reads: u64, writes: u64, faults: u64) -> StoreCounts {
    StoreCounts {
        reads,
        writes,
        faults,
    }
}

// Lends a store and takes it back with these counts.
fn store_by(ledger: &mut Ledger, worker: u16, shard: u16, counts: StoreCounts) -> bool {
    match ledger.lend(worker, shard) {
        Ok(()) => {
            ledger.give(worker, shard, counts);
            true
        }
        Err(_) => false,
    }
}

fn adds(rt: &impl Abort, ledger: &mut Ledger, worker: u16, more: StoreCounts, want: StoreCounts) {
    assert!(rt; store_by(ledger, worker, 0, more));
    assert_eq!(rt; ledger.returned(worker), want);
}

#[test]
fn sums_stay_at_their_greatest_value(rt: HostRuntime) {
    let mut ledger = Ledger::new(rt.alloc());
    adds(
        &rt,
        &mut ledger,
        3,
        counts(TOP - 1, 1, 0),
        counts(TOP - 1, 1, 0),
    );
    adds(&rt, &mut ledger, 3, counts(1, 2, 0), counts(TOP, 3, 0));
    adds(&rt, &mut ledger, 3, counts(1, TOP, 5), counts(TOP, TOP, 5));
    adds(&rt, &mut ledger, 0, counts(1, 2, 3), counts(1, 2, 3));
    assert_eq!(rt; ledger.returned(3), counts(TOP, TOP, 5));
    assert_eq!(rt; ledger.returned(4), counts(0, 0, 0));
}
