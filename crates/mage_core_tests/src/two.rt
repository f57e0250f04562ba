// Two workers, whose stores have one page each.
ghost use Rattle.std.specs.Prelude.{◌≡◌, length, IfOk};
ghost use Rattle.std.specs.List.{All};
ghost use Rattle.mage_directives.specs.Directives.{IsMemProgram};

use crate::one::driver_of;
use mage_base::{MemStore, Memory};
use mage_core::{Ended, RunFault, solo};
use mage_instr::MemProgram;
use mage_plain::PlainDriver;
use mage_verify::verify;
use std::alloc::Global;

/// What a run of two workers comes to.
#[derive(Drop)]
pub struct Pair {
    pub fault: Option<RunFault>,
    pub first: Vec<u128>,
    pub second: Vec<u128>,
}

/// One of two workers: the garbler's values, and which calls of its store fail.
#[derive(Clone, Copy)]
pub struct Worker<'a> {
    pub values: &'a [u128],
    pub fails: &'a [u64],
}

// A store of one page, alone on its shelf.
fn shelf(alloc: Global, fails: &[u64]) -> Result<Vec<MemStore>, Memory>
    ensures { IfOk result (λ shelf. (length shelf.items ≡ 1)
        × All (λ store. store.page_bytes ≡ 64) shelf.items) }
{
    let mut shelf = Vec::new(alloc);
    shelf.push(MemStore::make(alloc, 1, 64, fails)?)?;
    Ok(shelf)
}

/// Runs two workers in plain, where the garbler has these values for each. `Memory` too where the program has a fault.
pub fn run_pair(
    alloc: Global,
    plan: MemProgram,
    first: Worker<'_>,
    second: Worker<'_>,
) -> Result<Pair, Memory>
    requires plan { IsMemProgram plan }
    requires wires { plan.limits.page ≡ 64 }
    requires workers { length plan.workers ≡ 2 }
{
    let Ok(verified) = verify(alloc, plan) else {
        return Err(Memory);
    };
    let mut drivers = Vec::new(alloc);
    drivers.push(driver_of(alloc, first.values)?)?;
    drivers.push(driver_of(alloc, second.values)?)?;
    let mut stores = Vec::new(alloc);
    stores.push(shelf(alloc, first.fails)?)?;
    stores.push(shelf(alloc, second.fails)?)?;
    came(alloc, solo(alloc, verified.parts(), drivers, stores))
}

// The two workers of a run.
fn came(alloc: Global, ended: Ended<PlainDriver, MemStore>) -> Result<Pair, Memory> {
    let Ended {
        drivers,
        stores: _,
        fault,
    } = ended;
    let mut drivers = drivers;
    let second = drivers.pop().ok_or(Memory)?;
    let first = drivers.pop().ok_or(Memory)?;
    Ok(Pair {
        fault,
        first: Vec::from_slice(alloc, first.outputs())?,
        second: Vec::from_slice(alloc, second.outputs())?,
    })
}
