// Store pages in place of the pages that a verified memory program names.
ghost use Rattle.std.specs.Prelude.{◌≡◌, IfOk, None, length, map};
ghost use Rattle.mage_instr.specs.declared.directive.MemProgram.{MemProgram};
ghost use Rattle.mage_directives.specs.Directives.{IsMemProgram};
ghost use Rattle.mage_schedulable.specs.Planning.{program_of};
ghost use Rattle.mage_verify.specs.Faults.{fault_of};
ghost use Rattle.mage_verify.specs.Parts.{parts_of};
ghost use Rattle.mage_rehome.specs.Rehomed.{homed_parts, rehomed_of};

use mage_base::Memory;
use mage_instr::{Limits, MemProgram};
use mage_sched::homed;
use mage_verify::{Part, Verified};
use sqlite_items::Items;
use std::alloc::Global;

/// A memory program with store pages in place of the pages that its transfers name.
///
/// In each worker a page takes at its first `IssueOut` the lowest store page that no page holds, and holds it until the finish of
/// the last transfer that names it. The worker's number of store pages becomes the greatest that is held at once; the limits, the
/// pages of `Fresh` and all other directives stay.
///
/// What the verifier was given (`whole`) carries a program exactly where the result does (`renaming_keeps_carried`). Each field of
/// the result is in its range, so it can be written, it has no fault, so the verifier takes it when it is read again, and each worker
/// has as many directives as before.
///
/// `Memory` where there is none. Nothing else can go wrong.
pub fn rehome(alloc: Global, plan: Verified) -> Result<MemProgram, Memory>
    ensures plan { (whole : MemProgram) → plan ≡ parts_of whole
        → IfOk result (λ renamed. renamed ≡ rehomed_of whole) }
    ensures fields { IfOk result IsMemProgram }
    ensures none { IfOk result (λ renamed. fault_of renamed ≡ None) }
    ensures counts { (whole : MemProgram) → plan ≡ parts_of whole
        → IfOk result (λ renamed. map length renamed.workers ≡ map length whole.workers) }
{
    let parts = plan.parts();
    let limits = parts[0].limits();
    renamed(alloc, limits, parts.as_slice())
}

// The memory program of some parts with store pages.
fn renamed(alloc: Global, limits: Limits, parts: &[Part]) -> Result<MemProgram, Memory>
    ensures { IfOk result (λ renamed. renamed ≡ program_of limits (homed_parts parts.now)) }
{
    let mut stores = Items::new(alloc);
    let mut workers = Items::new(alloc);
    for part in parts {
        let (directives, count) = homed(alloc, part.directives())?;
        stores.push(count)?;
        workers.push(Items::from_vec(directives))?;
    }
    Ok(MemProgram {
        limits,
        stores,
        workers,
    })
}
