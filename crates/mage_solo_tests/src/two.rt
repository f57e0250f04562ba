// Two workers, whose stores have one page each.
ghost use Rattle.std.specs.Prelude.{◌≡◌, length, IfOk};
ghost use Rattle.std.specs.List.{All};
ghost use Rattle.mage_directives.specs.Directives.{IsMemProgram};

use mage_base::{MemStore, Memory};
use mage_core::RunFault;
use mage_instr::MemProgram;
use mage_solo::run_plain;
use mage_verify::verify;
use std::alloc::Global;

/// Which calls of the stores of two workers fail.
#[derive(Clone, Copy)]
pub struct Fails<'a> {
    pub first: &'a [u64],
    pub second: &'a [u64],
}

/// The values of one party for both workers.
#[derive(Clone, Copy)]
pub struct Given<'a> {
    pub first: &'a [u128],
    pub second: &'a [u128],
}

// A store of one page, alone on its shelf.
fn shelf(alloc: Global, fails: &[u64]) -> Result<Vec<MemStore>, Memory>
    ensures { IfOk result (λ shelf. (length shelf.items ≡ 1)
        × All (λ store. store.page_bytes ≡ 64) shelf.items) }
{
    let mut shelf = Vec::new(alloc);
    shelf.push(MemStore::make(alloc, 1, 64, fails)?)?;
    Ok(shelf)
}

/// Two lists of values.
pub(crate) fn both(alloc: Global, given: Given<'_>) -> Result<Vec<Vec<u128>>, Memory>
    ensures { IfOk result (λ lists. length lists.items ≡ 2) }
{
    let mut lists = Vec::new(alloc);
    lists.push(Vec::from_slice(alloc, given.first)?)?;
    lists.push(Vec::from_slice(alloc, given.second)?)?;
    Ok(lists)
}

/// Runs two workers in plain, on these values of both parties. `Memory` too where the program has a fault.
pub fn run_pair(
    alloc: Global,
    plan: MemProgram,
    garbler: Given<'_>,
    evaluator: Given<'_>,
    fails: Fails<'_>,
) -> Result<Result<Vec<Vec<u128>>, RunFault>, Memory>
    requires plan { IsMemProgram plan }
    requires wires { plan.limits.page ≡ 64 }
    requires workers { length plan.workers ≡ 2 }
{
    let Ok(verified) = verify(alloc, plan) else {
        return Err(Memory);
    };
    let garbler = both(alloc, garbler)?;
    let evaluator = both(alloc, evaluator)?;
    let mut stores = Vec::new(alloc);
    stores.push(shelf(alloc, fails.first)?)?;
    stores.push(shelf(alloc, fails.second)?)?;
    Ok(run_plain(alloc, verified.parts(), garbler, evaluator, stores).outcome)
}
