// Next uses, from the last step to the first.
ghost use Rattle.std.specs.Prelude.{◌≡◌, ◌<◌, ◌≤◌, ◌==◌, ℕ, length, drop, nat_eq, unwrap_or, IfOk, OnOk, slice_index};
ghost use Rattle.std.specs.HashMap.{get};
ghost use Rattle.mage_instr.specs.Trace.{IsTrace, IsStep};
ghost use Rattle.mage_next.specs.Next.{first_use, use_of, AreNextUses, use_noted};

use mage_base::Memory;
use mage_instr::{NEVER, Step};
use std::alloc::Global;
use std::collections::HashMap;

/// Four numbers for each step of a trace, in order: for each of its pages, in the step's order, the least later step
/// that has the page, or `NEVER` where there is none. Behind the step's pages stands `NEVER`. Steps are numbered from
/// 0, and a step is not its own next use.
///
/// The one error is want of memory, and no clause says when it comes. One pass goes from the last step to the first,
/// with a map from each page to the step that has it next.
pub fn next_uses(alloc: Global, trace: &[Step]) -> Result<Vec<[u32; 4]>, Memory>
    requires { IsTrace trace.now }
    ensures { IfOk result (λ uses. AreNextUses trace.now uses.items) }
{
    let mut uses = vec![in alloc; [NEVER; 4]; trace.len()]?;
    let mut seen: HashMap<u32, u32> = HashMap::new(alloc);
    for t in (0..trace.len()).rev() {
        let step = trace[t];
        uses[t] = uses_at(&seen, step);
        note(&mut seen, step, t as u32)?;
    }
    Ok(uses)
}

// When the pages of a step are used next, by the map from each page to the next step that has it.
fn uses_at(seen: &HashMap<u32, u32>, step: Step) -> [u32; 4]
    requires { IsStep step }
    ensures { (k : ℕ) → k < 4 → slice_index result k
        ≡ use_of step (λ page. unwrap_or (get nat_eq seen.now page) NEVER) k }
{
    let mut uses = [NEVER; 4];
    for k in 0..usize::from(step.count) {
        uses[k] = seen.get(&step.pages[k]).copied().unwrap_or(NEVER);
    }
    uses
}

// The pages of a step are used at t.
fn note(seen: &mut HashMap<u32, u32>, step: Step, t: u32) -> Result<(), Memory>
    requires { IsStep step }
    ensures { OnOk result ((q : ℕ) → unwrap_or (get nat_eq seen.new q) NEVER
        ≡ use_noted step t (λ page. unwrap_or (get nat_eq seen.old page) NEVER) q) }
{
    for k in 0..usize::from(step.count) {
        seen.insert(step.pages[k], t)?;
    }
    Ok(())
}

#[cfg(test)]
mod tests;
