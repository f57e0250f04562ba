ghost use Rattle.std.specs.Prelude.{◌≡◌, ◌⊎◌, ◌≤◌, ◌<◌, ℕ, length, slice_get, IfSome, IfOk, IfErr, OnOk, Some, None};
ghost use Rattle.mage_instr.specs.declared.replaced.Limits.{Limits};
ghost use Rattle.mage_directives.specs.Directives.{IsMemProgram, IsPart};
ghost use Rattle.mage_verify.specs.declared.fault.VerifyFault.TheVariants as wrong;
ghost use Rattle.mage_verify.specs.Faults.{fault_at, fault_from, own_fault, lowest, fault_of};
ghost use Rattle.mage_verify.specs.Parts.{parts_of, parts_from};
ghost use Rattle.mage_verify.specs.State.{opening};
ghost use Rattle.mage_verify.specs.Tables.{AreKept, IsFine, state_in};
ghost use Rattle.mage_verify.specs.Runs.{AreSafe};

use crate::joint::check_joint;
use crate::leaving::leaves_of;
use crate::range::{has_page, is_in_range};
use crate::swaps::Swaps;
use crate::{Part, Verified, VerifyFault};
use mage_base::Memory;
use mage_instr::{Directive, Limits, MemProgram};
use sqlite_items::Items;
use std::alloc::Global;

/// The parts of a memory program, where nothing in it can go wrong.
///
/// The workers are looked at in order, and their directives in order, each for these faults:
///
/// 1. `Range`: a frame isn't below `frames`, a slot isn't below `buffer`, a store page isn't below the worker's number of
///    them, or the offset of a value and its width together pass `page`.
/// 2. `SlotState`: a slot in flight is issued, a slot is finished that doesn't read, or one that doesn't write. A slot is
///    in flight from its issue to its finish.
/// 3. `PageState`: a store page is issued that a slot in flight names, or is read though no finished write of it came before.
///
/// Where a slot is in flight after the last directive of a worker, that is `SlotState` at the count of directives. The
/// answer is the first fault.
///
/// Where there is none, all workers run together: a `Send` and its `Recv` happen at once, when the sender stands at the one and
/// the receiver at the other, and at each turn the lowest worker that can goes on. Where this stops before all have ended,
/// `Links` names the lowest worker that hasn't, and the directive at which it stands. Else `Width` names the lowest worker
/// that receives a value in another width than it was sent, and its first such `Recv`.
///
/// `Memory` may come at any time. Each field of the program is in its range, and the program is dropped on a refusal.
pub fn verify(alloc: Global, plan: MemProgram) -> Result<Verified, VerifyFault>
    requires { IsMemProgram plan }
    ensures parts { IfOk result (λ verified. verified ≡ parts_of plan) }
    ensures none { OnOk result (fault_of plan ≡ None) }
    ensures fault { IfErr result (λ fault. (fault ≡ wrong.Memory) ⊎ (fault_of plan ≡ Some fault)) }
{
    match check_all(alloc, &plan) {
        Ok(()) => seal(alloc, plan),
        Err(fault) => Err(fault),
    }
}

// Each worker by itself, and then all together.
fn check_all(alloc: Global, plan: &MemProgram) -> Result<(), VerifyFault>
    requires { IsMemProgram plan.now }
    ensures none { OnOk result (fault_of plan.now ≡ None) }
    ensures fault { IfErr result (λ fault. (fault ≡ wrong.Memory) ⊎ (fault_of plan.now ≡ Some fault)) }
{
    let workers = plan.workers.as_slice();
    check_parts(alloc, plan.limits, plan.stores.as_slice(), workers)?;
    check_joint(alloc, workers)
}

// The parts of a memory program without a fault.
fn seal(alloc: Global, plan: MemProgram) -> Result<Verified, VerifyFault>
    requires in_range { IsMemProgram plan }
    requires none { fault_of plan ≡ None }
    ensures parts { IfOk result (λ verified. verified ≡ parts_of plan) }
    ensures memory { IfErr result (λ fault. fault ≡ wrong.Memory) }
{
    let MemProgram {
        limits,
        stores,
        workers,
    } = plan;
    match parts_of(alloc, limits, stores.as_slice(), workers) {
        Ok(parts) => Ok(Verified::from_parts(parts)),
        Err(_) => Err(VerifyFault::Memory),
    }
}

// Each worker's directives by themselves.
fn check_parts(
    alloc: Global,
    limits: Limits,
    stores: &[u32],
    workers: &[Items<Directive>],
) -> Result<(), VerifyFault>
    requires few { length workers.now ≤ 16 }
    requires counted { length stores.now ≡ length workers.now }
    requires parts { (w : ℕ) → IfSome (slice_get workers.now w) (IsPart (length workers.now) w) }
    ensures none { OnOk result (lowest own_fault (parts_from limits stores.now 0 workers.now) ≡ None) }
    ensures fault { IfErr result (λ fault. (fault ≡ wrong.Memory) ⊎ (lowest own_fault (parts_from limits stores.now 0 workers.now) ≡ Some fault)) }
{
    for (worker, directives) in workers.iter().enumerate() {
        check_part(
            alloc,
            limits,
            stores[worker],
            worker as u16,
            directives.as_slice(),
        )?;
    }
    Ok(())
}

// The directives of one worker by themselves.
fn check_part(
    alloc: Global,
    limits: Limits,
    pages: u32,
    worker: u16,
    directives: &[Directive],
) -> Result<(), VerifyFault>
    requires { length directives.now < 4294967296 }
    ensures none { OnOk result (fault_from limits pages worker 0 opening directives.now ≡ None) }
    ensures fault { IfErr result (λ fault. (fault ≡ wrong.Memory) ⊎ (fault_from limits pages worker 0 opening directives.now ≡ Some fault)) }
{
    let mut swaps = Swaps::new(alloc, limits.buffer).map_err(|_| VerifyFault::Memory)?;
    for d in 0..directives.len() {
        let directive = directives[d];
        check(limits, pages, worker, d as u32, &swaps, directive)?;
        swaps
            .apply(limits, directive)
            .map_err(|_| VerifyFault::Memory)?;
    }
    if swaps.is_busy() {
        return Err(VerifyFault::SlotState {
            worker,
            directive: directives.len() as u32,
        });
    }
    Ok(())
}

// One directive.
fn check(
    limits: Limits,
    pages: u32,
    worker: u16,
    d: u32,
    swaps: &Swaps,
    directive: Directive,
) -> Result<(), VerifyFault>
    requires { AreKept limits.buffer swaps.now }
    ensures none { OnOk result (fault_at limits pages worker d (state_in swaps.now) directive ≡ None) }
    ensures fine { OnOk result (IsFine limits (state_in swaps.now) directive) }
    ensures fault { IfErr result (λ fault. fault_at limits pages worker d (state_in swaps.now) directive ≡ Some fault) }
{
    if !(is_in_range(limits, directive) && has_page(pages, directive)) {
        return Err(VerifyFault::Range {
            worker,
            directive: d,
        });
    }
    if !swaps.slot_is_right(limits, directive) {
        return Err(VerifyFault::SlotState {
            worker,
            directive: d,
        });
    }
    if !swaps.page_is_right(limits, directive) {
        return Err(VerifyFault::PageState {
            worker,
            directive: d,
        });
    }
    Ok(())
}

// A part for each worker, in order.
fn parts_of(
    alloc: Global,
    limits: Limits,
    stores: &[u32],
    mut workers: Items<Items<Directive>>,
) -> Result<Vec<Part>, Memory>
    requires few { length workers ≤ 16 }
    requires counted { length stores.now ≡ length workers }
    requires safe { AreSafe (parts_from limits stores.now 0 workers) }
    ensures { IfOk result (λ parts. parts.items ≡ parts_from limits stores.now 0 workers) }
{
    let mut parts = Vec::new(alloc);
    for (worker, pages) in stores.iter().enumerate() {
        let directives = workers.remove(0);
        let leaves = leaves_of(alloc, directives.as_slice())?;
        parts.push(Part::from_fields(worker as u16, limits, *pages, directives, leaves))?;
    }
    Ok(parts)
}
