// Whole runs: what they put out, what their stores counted, and what stopped them. The expected values are worked out by hand.
use crate::{Worker, run_alone, run_pair};
use mage_base::{Damage, MemStore};
use mage_core::RunFault;
use mage_log_store::{Lie, LogStore};
use mage_small_programs::{adding, swapping, swapping_twice};
use sha2::{Digest, Sha256};
use std::alloc::Global;
use std::test::Fail;

#[test]
fn a_page_goes_out_and_comes_in(rt: HostRuntime) -> Result<(), Fail> {
    let store = MemStore::make(rt.alloc(), 1, 64, &[])?;
    let went = run_alone(rt.alloc(), swapping(rt.alloc())?, &[7, 8, 9], store)?;
    assert_eq!(rt; went.fault, None);
    assert_eq!(rt; went.outputs.as_slice(), [7, 8].as_slice());
    let counts = went.store.counts();
    assert_eq!(rt; counts.reads, 1);
    assert_eq!(rt; counts.writes, 1);
    assert_eq!(rt; counts.faults, 0);
    Ok(())
}

// The read fails, behind the write.
#[test]
fn a_store_that_fails_stops_the_run(rt: HostRuntime) -> Result<(), Fail> {
    let store = MemStore::make(rt.alloc(), 1, 64, &[1])?;
    let went = run_alone(rt.alloc(), swapping(rt.alloc())?, &[7, 8, 9], store)?;
    assert_eq!(rt; went.fault, Some(RunFault::Store { worker: 0 }));
    assert_eq!(rt; went.outputs.as_slice(), [7].as_slice());
    assert_eq!(rt; went.store.counts().faults, 1);
    Ok(())
}

#[test]
fn one_worker_sends_to_the_other(rt: HostRuntime) -> Result<(), Fail> {
    let first = Worker {
        values: &[5],
        fails: &[],
    };
    let second = Worker {
        values: &[7],
        fails: &[],
    };
    let went = run_pair(rt.alloc(), adding(rt.alloc())?, first, second)?;
    assert_eq!(rt; went.fault, None);
    assert_eq!(rt; went.first.as_slice(), [12, 7].as_slice());
    assert_eq!(rt; went.second.is_empty(), true);
    Ok(())
}

// The second worker's store fails after the first worker has ended.
#[test]
fn the_fault_names_its_worker(rt: HostRuntime) -> Result<(), Fail> {
    let worker = Worker {
        values: &[7, 8, 9],
        fails: &[],
    };
    let failing = Worker {
        fails: &[0],
        ..worker
    };
    let went = run_pair(rt.alloc(), swapping_twice(rt.alloc())?, worker, failing)?;
    assert_eq!(rt; went.fault, Some(RunFault::Store { worker: 1 }));
    assert_eq!(rt; went.first.as_slice(), [7, 8].as_slice());
    assert_eq!(rt; went.second.as_slice(), [7].as_slice());
    Ok(())
}

// What stops a run over a store that xors byte 3 of the page that it reads, and what is put out.
fn lied_to(alloc: Global, mask: u8) -> Result<(Option<RunFault>, Vec<u128>), Fail> {
    let lie = Lie {
        read: 0,
        byte: 3,
        mask,
    };
    let store = LogStore::make(alloc, 1, 64, 2, &[lie])?;
    let went = run_alone(alloc, swapping(alloc)?, &[7, 8, 9], store)?;
    Ok((went.fault, went.outputs))
}

// The page has the wires of 8: its byte 3 is 1, and each other one 0.
#[test]
fn a_page_that_comes_back_changed_is_found(rt: HostRuntime) -> Result<(), Fail> {
    let (fault, _) = lied_to(rt.alloc(), 1)?;
    let mut page = [0u8; 64];
    let found = Sha256::digest(&page);
    page[3] = 1;
    let kept = Sha256::digest(&page);
    let damage = Damage {
        page: 0,
        kept,
        found,
    };
    assert_eq!(rt; fault, Some(RunFault::Damaged { worker: 0, damage }));
    let (fault, outputs) = lied_to(rt.alloc(), 0)?;
    assert_eq!(rt; fault, None);
    assert_eq!(rt; outputs.as_slice(), [7, 8].as_slice());
    Ok(())
}
