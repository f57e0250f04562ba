// What a plan of residency reads, or what is wrong with it.
ghost use Rattle.std.specs.Prelude.{◌≡◌, ◌≢◌, ◌≤◌, ◌<◌, ◌&&◌, ◌||◌, ◌⊎◌, ℕ, length, map, not, nat_eq, IfOk, IfErr, OnOk, Some, None};
ghost use Rattle.std.specs.List.{list_all};
ghost use Rattle.std.specs.HashSet.{contains};
ghost use Rattle.mage_instr.specs.Trace.{IsTrace, IsStep, pages_of};
ghost use Rattle.mage_belady.specs.declared.fault.CostFault.TheVariants as wrong;
ghost use Rattle.mage_belady.specs.Plan.{is_in, how_many, Serves, reads_of};
ghost use Rattle.mage_belady.specs.Rule.{pages_by_step};
ghost use Rattle.mage_belady.specs.Cost.{ascends, fault_at, fault_of, sets_in};

use crate::CostFault;
use mage_base::Memory;
use mage_instr::Step;
use std::alloc::Global;
use std::collections::HashSet;

/// The reads of a plan of residency: how many pages come into memory that a step before had.
///
/// The plan is a list of sets of pages, one for each step, each ascending strictly. The answer is
/// the first fault where it isn't a plan for the trace with these frames.
pub fn cost(alloc: Global, trace: &[Step], frames: u32, plan: &[Vec<u32>]) -> Result<u64, CostFault>
    requires { IsTrace trace.now }
    ensures reads { IfOk result (λ reads. reads
        ≡ reads_of (sets_in plan.now) (pages_by_step trace.now)) }
    ensures none { OnOk result
        (fault_of frames (sets_in plan.now) (pages_by_step trace.now) ≡ None) }
    ensures serves { OnOk result (Serves (sets_in plan.now) (pages_by_step trace.now) frames) }
    ensures fault { IfErr result (λ fault. (fault ≡ wrong.Memory)
        ⊎ (fault_of frames (sets_in plan.now) (pages_by_step trace.now) ≡ Some fault)) }
{
    if plan.len() != trace.len() {
        return Err(CostFault::Length);
    }
    let mut seen: HashSet<u32> = HashSet::new(alloc);
    let mut before: &[u32] = &[];
    let mut reads = 0;
    for t in 0..trace.len() {
        let set = plan[t].as_slice();
        check(set, trace[t], frames, t as u32)?;
        reads += coming_back(set, before, &seen) as u64;
        note(&mut seen, trace[t]).map_err(|_| CostFault::Memory)?;
        before = set;
    }
    Ok(reads)
}

// The fault of the set of step t.
fn check(set: &[u32], step: Step, frames: u32, t: u32) -> Result<(), CostFault>
    requires { IsStep step }
    ensures none { OnOk result (fault_at frames t set.now (pages_of step) ≡ None) }
    ensures fault { IfErr result (λ fault. fault_at frames t set.now (pages_of step) ≡ Some fault) }
{
    if !is_ascending(set) {
        return Err(CostFault::Order { step: t });
    }
    if !has_pages(set, step) {
        return Err(CostFault::Misses { step: t });
    }
    if set.len() as u64 > frames as u64 {
        return Err(CostFault::Over { step: t });
    }
    Ok(())
}

// Whether each page is below the next.
fn is_ascending(set: &[u32]) -> bool
    ensures { result ≡ ascends set.now }
{
    for k in 1..set.len() {
        if set[k - 1] >= set[k] {
            return false;
        }
    }
    true
}

// Whether a set has each page of a step.
fn has_pages(set: &[u32], step: Step) -> bool
    requires { IsStep step }
    ensures { result ≡ list_all (λ page. is_in page set.now) (pages_of step) }
{
    for k in 0..usize::from(step.count) {
        if !is_among(step.pages[k], set) {
            return false;
        }
    }
    true
}

// Whether a page is in a set.
fn is_among(page: u32, set: &[u32]) -> bool
    ensures { result ≡ is_in page set.now }
{
    set.iter().any(|p| page == *p)
}

// How many pages of a set come in that a step before had.
fn coming_back(set: &[u32], before: &[u32], seen: &HashSet<u32>) -> usize
    ensures count { result
        ≡ how_many (λ page. contains nat_eq seen.now page && not (is_in page before.now)) set.now }
    ensures bound { result ≤ length set.now }
{
    let mut count = 0;
    for page in set {
        if seen.contains(page) && !is_among(*page, before) {
            count += 1;
        }
    }
    count
}

// The pages of a step were had.
fn note(seen: &mut HashSet<u32>, step: Step) -> Result<(), Memory>
    requires { IsStep step }
    ensures { OnOk result ((page : ℕ) → contains nat_eq seen.new page
        ≡ (contains nat_eq seen.old page || is_in page (pages_of step))) }
{
    for k in 0..usize::from(step.count) {
        seen.insert(step.pages[k])?;
    }
    Ok(())
}

#[cfg(test)]
mod tests;
