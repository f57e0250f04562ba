// One worker.
ghost use Rattle.std.specs.Prelude.{◌≡◌, length, IfOk};
ghost use Rattle.mage_directives.specs.Directives.{IsMemProgram};
ghost use Rattle.mage_driver.specs.declared.standing.Standing.TheVariants as standing;

use mage_base::{Memory, Store};
use mage_core::{Ended, RunFault, solo};
use mage_instr::MemProgram;
use mage_plain::PlainDriver;
use mage_verify::verify;
use std::alloc::Global;

/// What a run of one worker comes to.
#[derive(Drop)]
pub struct Alone<S: Drop> {
    pub fault: Option<RunFault>,
    pub outputs: Vec<u128>,
    pub store: S,
}

/// A driver with room for 8 outputs, where the garbler has these values.
pub(crate) fn driver_of(alloc: Global, values: &[u128]) -> Result<PlainDriver, Memory>
    ensures { IfOk result (λ driver. driver.standing ≡ standing.Running) }
{
    let garbler = Vec::from_slice(alloc, values)?;
    PlainDriver::make(alloc, garbler, Vec::new(alloc), 8)
}

/// What a list has in front.
pub(crate) fn first_of<T>(list: Vec<T>) -> Result<T, Memory>
where
    T: Drop,
{
    let mut list = list;
    list.truncate(1);
    list.pop().ok_or(Memory)
}

/// Runs one worker in plain, where the garbler has these values, over a store of pages of 64 bytes. `Memory` too where the program
/// has a fault.
pub fn run_alone<S: Store + Drop>(
    alloc: Global,
    plan: MemProgram,
    values: &[u128],
    store: S,
) -> Result<Alone<S>, Memory>
    requires plan { IsMemProgram plan }
    requires wires { plan.limits.page ≡ 64 }
    requires workers { length plan.workers ≡ 1 }
    requires page { (S.tells store).page_bytes ≡ 64 }
{
    let Ok(verified) = verify(alloc, plan) else {
        return Err(Memory);
    };
    let mut drivers = Vec::new(alloc);
    drivers.push(driver_of(alloc, values)?)?;
    let mut shelf = Vec::new(alloc);
    shelf.push(store)?;
    let mut stores = Vec::new(alloc);
    stores.push(shelf)?;
    came(alloc, solo(alloc, verified.parts(), drivers, stores))
}

// The one worker of a run.
fn came<S: Store + Drop>(alloc: Global, ended: Ended<PlainDriver, S>) -> Result<Alone<S>, Memory> {
    let Ended {
        drivers,
        stores,
        fault,
    } = ended;
    let driver = first_of(drivers)?;
    Ok(Alone {
        fault,
        outputs: Vec::from_slice(alloc, driver.outputs())?,
        store: first_of(first_of(stores)?)?,
    })
}
