// Memory programs of given directives, on pages of 64 wires, with a buffer of one slot and stores of one page.
ghost use Rattle.std.specs.Prelude.{◌≡◌, ◌<◌, ◌≤◌, length, IfOk};
ghost use Rattle.mage_directives.specs.Directives.{IsMemProgram};
ghost use Rattle.mage_instr.specs.Limits.{AreInRange};
ghost use Rattle.mage_verify.specs.Literals.{AreDirectives};

use mage_base::Memory;
use mage_instr::{Directive, Limits, MemProgram};
use sqlite_items::Items;
use std::alloc::Global;

fn limits(frames: u32) -> Limits
    requires { (1 ≤ frames) × (frames ≤ 2) }
    ensures range { AreInRange result }
    ensures page { result.page ≡ 64 }
{
    Limits {
        page: 64,
        frames,
        buffer: 1,
        ahead: 0,
    }
}

/// The program of one worker, with one frame or two.
pub fn one_worker(
    alloc: Global,
    frames: u32,
    directives: &[Directive],
) -> Result<MemProgram, Memory>
    requires frames { (1 ≤ frames) × (frames ≤ 2) }
    requires count { length directives.now < 100 }
    requires fields { AreDirectives 1 0 directives.now }
    ensures fields { IfOk result IsMemProgram }
    ensures page { IfOk result (λ plan. plan.limits.page ≡ 64) }
    ensures workers { IfOk result (λ plan. length plan.workers ≡ 1) }
{
    one_worker_over(alloc, frames, 1, directives)
}

/// The same, whose store has so many pages.
pub fn one_worker_over(
    alloc: Global,
    frames: u32,
    pages: u32,
    directives: &[Directive],
) -> Result<MemProgram, Memory>
    requires frames { (1 ≤ frames) × (frames ≤ 2) }
    requires pages { pages < 100 }
    requires count { length directives.now < 100 }
    requires fields { AreDirectives 1 0 directives.now }
    ensures fields { IfOk result IsMemProgram }
    ensures page { IfOk result (λ plan. plan.limits.page ≡ 64) }
    ensures workers { IfOk result (λ plan. length plan.workers ≡ 1) }
{
    let mut stores = Items::new(alloc);
    stores.push(pages)?;
    let mut workers = Items::new(alloc);
    workers.push(Items::from_slice(alloc, directives)?)?;
    Ok(MemProgram {
        limits: limits(frames),
        stores,
        workers,
    })
}

/// The program of two workers, with two frames each.
pub fn two_workers(
    alloc: Global,
    first: &[Directive],
    second: &[Directive],
) -> Result<MemProgram, Memory>
    requires count { (length first.now < 100) × (length second.now < 100) }
    requires first { AreDirectives 2 0 first.now }
    requires second { AreDirectives 2 1 second.now }
    ensures fields { IfOk result IsMemProgram }
    ensures page { IfOk result (λ plan. plan.limits.page ≡ 64) }
    ensures workers { IfOk result (λ plan. length plan.workers ≡ 2) }
{
    let mut stores = Items::new(alloc);
    stores.push(1)?;
    stores.push(1)?;
    let mut workers = Items::new(alloc);
    workers.push(Items::from_slice(alloc, first)?)?;
    workers.push(Items::from_slice(alloc, second)?)?;
    Ok(MemProgram {
        limits: limits(2),
        stores,
        workers,
    })
}
