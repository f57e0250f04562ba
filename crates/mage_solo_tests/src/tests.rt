// Whole runs in plain: what they put out, what their stores counted, and what stopped them. The expected values are worked out by hand.
use crate::{Fails, Given, run_alone, run_pair};
use mage_base::{Damage, MemStore};
use mage_core::RunFault;
use mage_log_store::{Lie, LogStore};
use mage_small_programs::{adding, both_parties, swapping, swapping_twice};
use sha2::{Digest, Sha256};
use std::alloc::Global;
use std::test::Fail;

// What a run put out, or nothing where it was stopped.
pub(crate) fn outputs_of(outcome: &Result<Vec<u128>, RunFault>) -> &[u128] {
    match outcome {
        Ok(outputs) => outputs.as_slice(),
        Err(_) => &[],
    }
}

// What stopped a run.
pub(crate) fn fault_of<T>(outcome: &Result<T, RunFault>) -> Option<RunFault> {
    match outcome {
        Ok(_) => None,
        Err(fault) => Some(*fault),
    }
}

#[test]
fn a_page_goes_out_and_comes_in(rt: HostRuntime) -> Result<(), Fail> {
    let store = MemStore::make(rt.alloc(), 1, 64, &[])?;
    let ran = run_alone(rt.alloc(), swapping(rt.alloc())?, &[7, 8, 9], &[], store)?;
    assert_eq!(rt; fault_of(&ran.outcome), None);
    assert_eq!(rt; outputs_of(&ran.outcome), [7, 8].as_slice());
    let counts = ran.store.counts();
    assert_eq!(rt; counts.reads, 1);
    assert_eq!(rt; counts.writes, 1);
    assert_eq!(rt; counts.faults, 0);
    Ok(())
}

// The write fails, and then the read behind it.
#[test]
fn a_store_that_fails_stops_the_run(rt: HostRuntime) -> Result<(), Fail> {
    for call in 0..2u64 {
        let store = MemStore::make(rt.alloc(), 1, 64, &[call])?;
        let ran = run_alone(rt.alloc(), swapping(rt.alloc())?, &[7, 8, 9], &[], store)?;
        assert_eq!(rt; fault_of(&ran.outcome), Some(RunFault::Store { worker: 0 }));
        assert_eq!(rt; ran.store.counts().faults, 1);
    }
    Ok(())
}

// The garbler's value comes first.
#[test]
fn each_party_has_its_values(rt: HostRuntime) -> Result<(), Fail> {
    let store = MemStore::make(rt.alloc(), 1, 64, &[])?;
    let ran = run_alone(rt.alloc(), both_parties(rt.alloc())?, &[5], &[6], store)?;
    assert_eq!(rt; outputs_of(&ran.outcome), [5, 6].as_slice());
    Ok(())
}

// No values, and no call that fails.
const NONE: Given<'static> = Given {
    first: &[],
    second: &[],
};

const SOUND: Fails<'static> = Fails {
    first: &[],
    second: &[],
};

// The outputs of both workers in a row, those of the first first; or nothing where the run was stopped.
fn in_a_row(alloc: Global, outcome: Result<Vec<Vec<u128>>, RunFault>) -> Result<Vec<u128>, Fail> {
    let mut row = Vec::new(alloc);
    if let Ok(outputs) = outcome {
        for own in outputs.iter() {
            row.extend_from_slice(own.as_slice())?;
        }
    }
    Ok(row)
}

// The first worker adds what the second one sends to its own value, and puts both out.
#[test]
fn one_worker_sends_to_the_other(rt: HostRuntime) -> Result<(), Fail> {
    let garbler = Given {
        first: &[5],
        second: &[7],
    };
    let outcome = run_pair(rt.alloc(), adding(rt.alloc())?, garbler, NONE, SOUND)?;
    assert_eq!(rt; fault_of(&outcome), None);
    let row = in_a_row(rt.alloc(), outcome)?;
    assert_eq!(rt; row.as_slice(), [12, 7].as_slice());
    Ok(())
}

// The outputs stand in the order of the workers, and a fault names its worker.
#[test]
fn each_worker_has_its_outputs(rt: HostRuntime) -> Result<(), Fail> {
    let garbler = Given {
        first: &[1, 2, 3],
        second: &[4, 5, 6],
    };
    let outcome = run_pair(
        rt.alloc(),
        swapping_twice(rt.alloc())?,
        garbler,
        NONE,
        SOUND,
    )?;
    let row = in_a_row(rt.alloc(), outcome)?;
    assert_eq!(rt; row.as_slice(), [1, 2, 4, 5].as_slice());
    let failing = Fails {
        second: &[1],
        ..SOUND
    };
    let outcome = run_pair(
        rt.alloc(),
        swapping_twice(rt.alloc())?,
        garbler,
        NONE,
        failing,
    )?;
    assert_eq!(rt; fault_of(&outcome), Some(RunFault::Store { worker: 1 }));
    Ok(())
}

// What a run comes to over a store that xors byte 3 of the page that it reads.
fn lied_to(alloc: Global, mask: u8) -> Result<Result<Vec<u128>, RunFault>, Fail> {
    let lie = Lie {
        read: 0,
        byte: 3,
        mask,
    };
    let store = LogStore::make(alloc, 1, 64, 2, &[lie])?;
    Ok(run_alone(alloc, swapping(alloc)?, &[7, 8, 9], &[], store)?.outcome)
}

// The page has the wires of 8: its byte 3 is 1, and each other one 0.
#[test]
fn a_page_that_comes_back_changed_is_found(rt: HostRuntime) -> Result<(), Fail> {
    let outcome = lied_to(rt.alloc(), 1)?;
    let mut page = [0u8; 64];
    let found = Sha256::digest(&page);
    page[3] = 1;
    let kept = Sha256::digest(&page);
    let damage = Damage {
        page: 0,
        kept,
        found,
    };
    assert_eq!(rt;
        fault_of(&outcome),
        Some(RunFault::Damaged { worker: 0, damage })
    );
    let outcome = lied_to(rt.alloc(), 0)?;
    assert_eq!(rt; outputs_of(&outcome), [7, 8].as_slice());
    Ok(())
}
