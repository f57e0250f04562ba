// The passes over the instructions of one worker.
ghost use Rattle.std.specs.Prelude.{◌≡◌, ◌≤◌, None, length, IfOk, IfErr};
ghost use Rattle.mage_instr.specs.declared.instr.TheConstants.{NEVER};
ghost use Rattle.mage_instr.specs.Limits.{AreInRange};
ghost use Rattle.mage_instr.specs.Sound.{IsSound};
ghost use Rattle.mage_instr.specs.Trace.{IsTrace};
ghost use Rattle.mage_place.specs.Places.{next_page};
ghost use Rattle.mage_place.specs.TooWide.{page_tight};
ghost use Rattle.mage_belady.specs.declared.fault.ReplaceError.TheVariants as errors;
ghost use Rattle.mage_belady.specs.Placed.{FitsTrace};
ghost use Rattle.mage_belady.specs.Rule.{rule_of, tight_of};
ghost use Rattle.mage_pipe.specs.Answer.{TightOrGives};
ghost use Rattle.mage_pipe.specs.Summary.{places_for, trace_for, cost_of, unless_tight, fitting_stats_of, worker_stats_of};
ghost use Rattle.mage_sched.specs.Schedule.{jobs_of};

use crate::WorkerStats;
use crate::counts::{loads, most_pages, page_count, saves};
use mage_belady::{ReplaceError, replace};
use mage_instr::{Instr, Limits, Place, Replaced, Step};
use mage_next::next_uses;
use mage_place::{page_tight, place};
use mage_sched::buffer_tight;
use std::alloc::Global;

// What the plan for a worker's instructions costs, or the limit that is too low.
#[tactic(auto, unfolding(crate::specs::Summary::worker_stats_of))]
pub(crate) fn worker_stats(
    alloc: Global,
    instrs: &[Instr],
    limits: Limits,
) -> Result<WorkerStats, ReplaceError>
    requires sound { IsSound instrs.now }
    requires limits { AreInRange limits }
    ensures { TightOrGives (λ stats. stats) result (worker_stats_of limits instrs.now) }
{
    match page_tight(instrs, limits.page) {
        Some(tight) => Err(ReplaceError::Tight(tight)),
        None => fitting_stats(alloc, instrs, limits),
    }
}

// The same where each value fits a page.
fn fitting_stats(
    alloc: Global,
    instrs: &[Instr],
    limits: Limits,
) -> Result<WorkerStats, ReplaceError>
    requires sound { IsSound instrs.now }
    requires limits { AreInRange limits }
    requires fits { page_tight limits.page instrs.now ≡ None }
    ensures { TightOrGives (λ stats. stats) result (fitting_stats_of limits instrs.now) }
{
    let (places, trace) = placed(alloc, instrs, limits)?;
    let list = listed(alloc, instrs, &places, &trace, limits)?;
    if let Some(tight) = buffer_tight(limits.buffer, &list) {
        return Err(ReplaceError::Tight(tight));
    }
    Ok(cost(instrs, &places, &trace, &list))
}

// The place of each result, and the pages that each instruction needs.
pub(crate) fn placed(
    alloc: Global,
    instrs: &[Instr],
    limits: Limits,
) -> Result<(Vec<Place>, Vec<Step>), ReplaceError>
    requires sound { IsSound instrs.now }
    requires limits { AreInRange limits }
    requires fits { page_tight limits.page instrs.now ≡ None }
    ensures places { IfOk result (λ placed. placed.0.items ≡ places_for limits instrs.now) }
    ensures trace { IfOk result (λ placed. placed.1.items ≡ trace_for limits instrs.now) }
    ensures few { IfOk result (λ placed. next_page placed.0.items ≤ NEVER) }
    ensures is_trace { IfOk result (λ placed. IsTrace placed.1.items) }
    ensures fits { IfOk result (λ placed. FitsTrace instrs.now placed.0.items placed.1.items) }
    ensures memory { IfErr result (λ fault. fault ≡ errors.Memory) }
{
    place(alloc, instrs, limits.page).map_err(|_| ReplaceError::Memory)
}

// The list of the instructions, with the pages that come and go in between.
pub(crate) fn listed(
    alloc: Global,
    instrs: &[Instr],
    places: &[Place],
    trace: &[Step],
    limits: Limits,
) -> Result<Vec<Replaced>, ReplaceError>
    requires limits { AreInRange limits }
    requires trace { IsTrace trace.now }
    requires places { FitsTrace instrs.now places.now trace.now }
    ensures list { TightOrGives (λ list. list.items) result
        (unless_tight (tight_of limits.frames 0 trace.now)
        (rule_of limits.frames instrs.now places.now trace.now)) }
    ensures few { IfOk result (λ list. jobs_of list.items ≤ NEVER) }
{
    let uses = next_uses(alloc, trace).map_err(|_| ReplaceError::Memory)?;
    replace(alloc, instrs, places, trace, &uses, limits.frames)
}

// What is counted over the instructions and their plan.
pub(crate) fn cost(
    instrs: &[Instr],
    places: &[Place],
    trace: &[Step],
    list: &[Replaced],
) -> WorkerStats
    requires instrs { length instrs.now ≤ NEVER }
    requires pages { next_page places.now ≤ NEVER }
    ensures { result ≡ cost_of instrs.now places.now trace.now list.now }
{
    WorkerStats {
        instructions: instrs.len() as u32,
        pages: page_count(places),
        needs: most_pages(trace),
        reads: loads(list),
        writes: saves(list),
    }
}
