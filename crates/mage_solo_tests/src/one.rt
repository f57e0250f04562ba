// One worker.
ghost use Rattle.std.specs.Prelude.{◌≡◌, length, IfOk};
ghost use Rattle.mage_directives.specs.Directives.{IsMemProgram};

use mage_base::{Memory, Store};
use mage_core::RunFault;
use mage_instr::MemProgram;
use mage_solo::{Ran, run_plain};
use mage_verify::verify;
use std::alloc::Global;

/// What a run of one worker comes to: what it put out, or what stopped it.
#[derive(Drop)]
pub struct Alone<S: Drop> {
    pub outcome: Result<Vec<u128>, RunFault>,
    pub store: S,
}

/// One list of values, for one worker.
pub(crate) fn only(alloc: Global, values: &[u128]) -> Result<Vec<Vec<u128>>, Memory>
    ensures { IfOk result (λ lists. length lists.items ≡ 1) }
{
    let mut lists = Vec::new(alloc);
    lists.push(Vec::from_slice(alloc, values)?)?;
    Ok(lists)
}

/// What a list has in front.
pub(crate) fn first_of<T>(list: Vec<T>) -> Result<T, Memory>
where
    T: Drop,
{
    let mut list = list;
    list.truncate(1);
    list.pop().ok_or(Memory)
}

/// Runs one worker in plain, on these values of both parties, over a store of pages of 64 bytes. `Memory` too where the program has a
/// fault.
pub fn run_alone<S: Store + Drop>(
    alloc: Global,
    plan: MemProgram,
    garbler: &[u128],
    evaluator: &[u128],
    store: S,
) -> Result<Alone<S>, Memory>
    requires plan { IsMemProgram plan }
    requires wires { plan.limits.page ≡ 64 }
    requires workers { length plan.workers ≡ 1 }
    requires page { (S.tells store).page_bytes ≡ 64 }
{
    let Ok(verified) = verify(alloc, plan) else {
        return Err(Memory);
    };
    let garbler = only(alloc, garbler)?;
    let evaluator = only(alloc, evaluator)?;
    let mut shelf = Vec::new(alloc);
    shelf.push(store)?;
    let mut stores = Vec::new(alloc);
    stores.push(shelf)?;
    came(run_plain(alloc, verified.parts(), garbler, evaluator, stores))
}

// The one worker of a run.
fn came<S: Store + Drop>(ran: Ran<S>) -> Result<Alone<S>, Memory> {
    let Ran { outcome, stores } = ran;
    let store = first_of(first_of(stores)?)?;
    let outcome = match outcome {
        Ok(outputs) => Ok(first_of(outputs)?),
        Err(fault) => Err(fault),
    };
    Ok(Alone { outcome, store })
}
