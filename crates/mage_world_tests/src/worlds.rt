// Worlds in plain.
ghost use Rattle.std.specs.Prelude.{◌≡◌, ◌≤◌, IfOk, IfSome};
ghost use Rattle.mage_directives.specs.Directives.{IsMemProgram};
ghost use Rattle.mage_driver.specs.declared.standing.Standing.TheVariants as standing;

use mage_base::Memory;
use mage_circuit::TallyDriver;
use mage_instr::MemProgram;
use mage_plain::PlainDriver;
use mage_verify::verify;
use mage_world::World;
use std::alloc::Global;

/// A driver whose garbler has these values.
pub(crate) fn plain(alloc: Global, garbler: Vec<u128>) -> Result<PlainDriver, Memory>
    ensures { IfOk result (λ driver. driver.standing ≡ standing.Running) }
{
    PlainDriver::make(alloc, garbler, Vec::new(alloc), 4)
}

/// The world of a program of one worker.
pub(crate) fn world_of_one(
    alloc: Global,
    plan: MemProgram,
    driver: PlainDriver,
) -> Option<World<PlainDriver>>
    requires plan { IsMemProgram plan }
    requires running { driver.standing ≡ standing.Running }
{
    let parts = verify(alloc, plan).ok()?.parts();
    if parts.len() != 1 {
        return None;
    }
    let drivers = Vec::from_array(alloc, [driver]).ok()?;
    World::make(alloc, parts, drivers, 1).ok()
}

/// The same with a driver that answers a fault after so many calls.
pub(crate) fn world_that_stops(
    alloc: Global,
    plan: MemProgram,
    last: u64,
) -> Option<World<TallyDriver>>
    requires plan { IsMemProgram plan }
{
    let parts = verify(alloc, plan).ok()?.parts();
    if parts.len() != 1 {
        return None;
    }
    let drivers = Vec::from_array(alloc, [TallyDriver::make(last)]).ok()?;
    World::make(alloc, parts, drivers, 1).ok()
}

/// The world of a program of two workers, whose links hold one wire.
pub(crate) fn world_of_two(
    alloc: Global,
    plan: MemProgram,
    first: PlainDriver,
    second: PlainDriver,
) -> Option<World<PlainDriver>>
    requires plan { IsMemProgram plan }
    requires first { first.standing ≡ standing.Running }
    requires second { second.standing ≡ standing.Running }
{
    let parts = verify(alloc, plan).ok()?.parts();
    if parts.len() != 2 {
        return None;
    }
    let drivers = Vec::from_array(alloc, [first, second]).ok()?;
    World::make(alloc, parts, drivers, 1).ok()
}
