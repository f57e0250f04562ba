// The list of Belady's rule.
ghost use Rattle.std.specs.Prelude.{◌≡◌, ◌≤◌, ◌<◌, ◌+◌, ◌*◌, ◌↔◌, IfOk, Some, None, Err};
ghost use Rattle.mage_instr.specs.declared.replaced.Tight.{Tight};
ghost use Rattle.mage_instr.specs.Trace.{IsTrace};
ghost use Rattle.mage_next.specs.Next.{AreNextUses};
ghost use Rattle.mage_belady.specs.declared.fault.ReplaceError.TheVariants as errors;
ghost use Rattle.mage_belady.specs.Placed.{FitsTrace};
ghost use Rattle.mage_belady.specs.Rule.{rule_of, tight_of, pages_by_step, page_uses, ReadsLeast};

use crate::ReplaceError;
use crate::jobs::{job_in, put_result};
use crate::paging::Paging;
use crate::steps::Steps;
use mage_base::Memory;
use mage_instr::{Instr, Place, Replaced, Step, Tight};
use std::alloc::Global;
use std::marker::Brand;
use std::sync::ledger::{Blank, Ledger};

/// The list of a worker's instructions, with the pages that come into frames and leave them in
/// between. No plan of residency for the trace in as many frames reads fewer pages than the list
/// loads.
///
/// A page of a step comes into the lowest free frame. Where none is free, the page outside the step
/// leaves that is used latest, and of several the one with the lowest number: the rule of L. A.
/// Belady, "A study of replacement algorithms for a virtual-storage computer", IBM Systems Journal
/// 5, 1966. It is saved where a result was put in it since it came in and it is used again.
///
/// `places` and `trace` are those that `mage_place` gives for the instructions, and `nexts` those
/// that `mage_next` gives for the trace. There are 0 to 65,536 frames. `Tight` names the first step
/// with more pages than there are frames; where no step has, `Memory` may come.
///
/// Victims are taken from an ordered map, in at most three calls on it for each page of each step
/// (`replace_counted`).
pub fn replace(
    alloc: Global,
    instrs: &[Instr],
    places: &[Place],
    trace: &[Step],
    nexts: &[[u32; 4]],
    frames: u32,
) -> Result<Vec<Replaced>, ReplaceError>
    requires trace { IsTrace trace.now }
    requires places { FitsTrace instrs.now places.now trace.now }
    requires nexts { AreNextUses trace.now nexts.now }
    requires frames { frames ≤ 65536 }
    ensures list { IfOk result (λ list. list.items
        ≡ rule_of frames instrs.now places.now trace.now) }
    ensures least { IfOk result (λ list. ReadsLeast list.items (pages_by_step trace.now) frames) }
    ensures tight { (tight : Tight) → (result ≡ Err (errors.Tight tight))
        ↔ (tight_of frames 0 trace.now ≡ Some tight) }
{
    replace_from::<Brand>(alloc, instrs, places, trace, nexts, frames, Blank::new(1))
}

// The same, with a counter in the ledger of a blank.
fn replace_from<L: Ledger>(
    alloc: Global,
    instrs: &[Instr],
    places: &[Place],
    trace: &[Step],
    nexts: &[[u32; 4]],
    frames: u32,
    blank: Blank,
) -> Result<Vec<Replaced>, ReplaceError>
    requires name { blank.name ≡ L.name }
    requires parts { blank.parts ≡ L.parts }
    requires some { 0 < blank.parts }
    requires trace { IsTrace trace.now }
    requires places { FitsTrace instrs.now places.now trace.now }
    requires nexts { AreNextUses trace.now nexts.now }
    requires frames { frames ≤ 65536 }
    ensures list { IfOk result (λ list. list.items
        ≡ rule_of frames instrs.now places.now trace.now) }
    ensures least { IfOk result (λ list. ReadsLeast list.items (pages_by_step trace.now) frames) }
    ensures tight { (tight : Tight) → (result ≡ Err (errors.Tight tight))
        ↔ (tight_of frames 0 trace.now ≡ Some tight) }
{
    let mut steps = Steps::<L>::new(blank);
    replace_counted(alloc, instrs, places, trace, nexts, frames, &mut steps)
}

/// The list of `replace`, with a count of the calls on the ordered map from which victims are
/// taken: a page is put in, a page is taken out, and the page that leaves first is taken out. There
/// are at most three for each page of each step, whatever the number of frames is. What a call
/// costs inside the map isn't counted.
pub fn replace_counted<L: Ledger>(
    alloc: Global,
    instrs: &[Instr],
    places: &[Place],
    trace: &[Step],
    nexts: &[[u32; 4]],
    frames: u32,
    steps: &mut Steps<L>,
) -> Result<Vec<Replaced>, ReplaceError>
    requires trace { IsTrace trace.now }
    requires places { FitsTrace instrs.now places.now trace.now }
    requires nexts { AreNextUses trace.now nexts.now }
    requires frames { frames ≤ 65536 }
    ensures list { IfOk result (λ list. list.items
        ≡ rule_of frames instrs.now places.now trace.now) }
    ensures least { IfOk result (λ list. ReadsLeast list.items (pages_by_step trace.now) frames) }
    ensures tight { (tight : Tight) → (result ≡ Err (errors.Tight tight))
        ↔ (tight_of frames 0 trace.now ≡ Some tight) }
    ensures bound { steps.new ≤ steps.old + 3 * page_uses trace.now }
{
    if let Some(tight) = first_tight(trace, frames) {
        return Err(ReplaceError::Tight(tight));
    }
    list_of(alloc, instrs, places, trace, nexts, frames, steps).map_err(|_| ReplaceError::Memory)
}

// The first step with more pages than there are frames.
fn first_tight(trace: &[Step], frames: u32) -> Option<Tight>
    requires { IsTrace trace.now }
    ensures { result ≡ tight_of frames 0 trace.now }
{
    for t in 0..trace.len() {
        let needs = trace[t].count;
        if u32::from(needs) > frames {
            return Some(Tight::Frames {
                instr: t as u32,
                needs,
                has: frames,
            });
        }
    }
    None
}

// The list, where each step fits the frames.
fn list_of<L: Ledger>(
    alloc: Global,
    instrs: &[Instr],
    places: &[Place],
    trace: &[Step],
    nexts: &[[u32; 4]],
    frames: u32,
    steps: &mut Steps<L>,
) -> Result<Vec<Replaced>, Memory>
    requires trace { IsTrace trace.now }
    requires places { FitsTrace instrs.now places.now trace.now }
    requires nexts { AreNextUses trace.now nexts.now }
    requires frames { frames ≤ 65536 }
    requires fit { tight_of frames 0 trace.now ≡ None }
    ensures list { IfOk result (λ list. list.items
        ≡ rule_of frames instrs.now places.now trace.now) }
    ensures bound { steps.new ≤ steps.old + 3 * page_uses trace.now }
{
    let mut paging = Paging::new(alloc);
    for t in 0..instrs.len() {
        let (step, instr) = (trace[t], instrs[t]);
        let at = paging.serve(step, t as u32, nexts[t], frames, steps)?;
        let job = job_in(step, at, places, t as u32, instr);
        paging.list.push(Replaced::Do(job))?;
        put_result(&mut paging.dirty, step, at, places, t as u32, instr);
    }
    Ok(paging.list)
}

#[cfg(test)]
mod tests;
