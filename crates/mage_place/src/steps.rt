// The trace: the pages that each instruction needs.
ghost use Rattle.std.specs.Prelude.{◌≡◌, ◌<◌, ◌≤◌, ◌+◌, ◌↔◌, ◌⊎◌, ℕ, length, slice_index, Contains, IfOk};
ghost use Rattle.mage_instr.specs.Sound.{IsSound};
ghost use Rattle.mage_instr.specs.Trace.{IsStep, pages_of};
ghost use Rattle.mage_place.specs.Live.{values_touched_by};
ghost use Rattle.mage_place.specs.Steps.{AreSteps, IsStepOf, IsPadded};
ghost use Rattle.mage_place.specs.Placing.{step_for, trace_of};

use crate::touched::touched_values;
use mage_base::Memory;
use mage_instr::{Instr, Place, Step};
use std::alloc::Global;

// The step of each instruction.
pub fn trace_of(alloc: Global, instrs: &[Instr], places: &[Place]) -> Result<Vec<Step>, Memory>
    requires sound { IsSound instrs.now }
    requires count { length places.now ≡ length instrs.now }
    ensures steps { IfOk result (λ trace. AreSteps instrs.now places.now trace.items) }
    ensures traced { IfOk result (λ trace. trace.items ≡ trace_of instrs.now places.now) }
{
    let mut trace = Vec::with_capacity(alloc, instrs.len())?;
    for (t, instr) in instrs.iter().enumerate() {
        trace.push(step_of(places, *instr, t as u32))?;
    }
    Ok(trace)
}

// The pages on which the values stand that instruction t touches.
fn step_of(places: &[Place], instr: Instr, t: u32) -> Step
    requires { (v : ℕ) → Contains (values_touched_by instr t) v → v < length places.now }
    ensures step { IsStepOf places.now t instr result }
    ensures computed { result ≡ step_for places.now t instr }
{
    let touched = touched_values(instr, t);
    let mut step = Step {
        pages: [0; 4],
        count: 0,
    };
    for k in 0..usize::from(touched.count) {
        step = with_page(step, places[touched.values[k] as usize].page);
    }
    step
}

// The step with one page more, unless it has the page.
fn with_page(step: Step, page: u32) -> Step
    requires ok { IsStep step }
    requires padded { IsPadded step }
    requires room { step.count < 4 }
    ensures ok { IsStep result }
    ensures padded { IsPadded result }
    ensures count { result.count ≤ step.count + 1 }
    ensures four { length result.pages ≡ 4 }
    ensures pages { (q : ℕ) → Contains (pages_of result) q
        ↔ (Contains (pages_of step) q ⊎ (q ≡ page)) }
{
    let at = below(step, page);
    if at < usize::from(step.count) && step.pages[at] == page {
        return step;
    }
    Step {
        pages: inserted(step, at, page),
        count: step.count + 1,
    }
}

// How many pages of the step are below the page.
fn below(step: Step, page: u32) -> usize
    requires { IsStep step }
    ensures within { result ≤ step.count }
    ensures below { (k : ℕ) → k < result → slice_index step.pages k < page }
    ensures above { (k : ℕ) → result ≤ k → k < step.count
        → page ≤ slice_index step.pages k }
{
    for k in 0..usize::from(step.count) {
        if page <= step.pages[k] {
            return k;
        }
    }
    usize::from(step.count)
}

// The pages of the step with one page more at an index.
fn inserted(step: Step, at: usize, page: u32) -> [u32; 4]
    requires room { step.count < 4 }
    requires at { at ≤ step.count }
    ensures before { (k : ℕ) → k < at → slice_index result k ≡ slice_index step.pages k }
    ensures here { slice_index result at ≡ page }
    ensures behind { (k : ℕ) → at ≤ k → k < step.count
        → slice_index result (k + 1) ≡ slice_index step.pages k }
    ensures rest { (k : ℕ) → step.count < k → k < 4
        → slice_index result k ≡ slice_index step.pages k }
{
    let mut pages = step.pages;
    for k in (at..usize::from(step.count)).rev() {
        pages[k + 1] = pages[k];
    }
    pages[at] = page;
    pages
}
