// The directives of one worker, and what they cost.
ghost use Rattle.std.specs.Prelude.{◌≡◌, ◌≤◌, None};
ghost use Rattle.mage_instr.specs.declared.instr.TheConstants.{NEVER};
ghost use Rattle.mage_instr.specs.Limits.{AreInRange};
ghost use Rattle.mage_instr.specs.Sound.{IsSound};
ghost use Rattle.mage_place.specs.TooWide.{page_tight};
ghost use Rattle.mage_pipe.specs.Answer.{TightOrGives};
ghost use Rattle.mage_pipe.specs.MemoryProgram.{homed_with, fitting_directives_of, worker_directives_of};
ghost use Rattle.mage_pipe.specs.Summary.{unless_tight, fitting_stats_of, worker_stats_of};
ghost use Rattle.mage_sched.specs.Schedule.{jobs_of, buffer_tight};
ghost use Rattle.mage_schedulable.specs.Planning.{directives_of};

use crate::WorkerStats;
use crate::worker::{cost, listed, placed};
use mage_belady::ReplaceError;
use mage_instr::{Directive, Instr, Limits, Replaced};
use mage_place::page_tight;
use mage_sched::{ScheduleError, schedule};
use std::alloc::Global;

// What the passes make of a worker's instructions: the directives, how many pages the store has, and what the plan costs.
#[derive(Drop)]
pub(crate) struct Part {
    pub directives: Vec<Directive>,
    pub store: u32,
    pub stats: WorkerStats,
}

// The part of a worker's instructions, or the limit that is too low.
#[tactic(auto, unfolding(crate::specs::MemoryProgram::worker_directives_of, crate::specs::Summary::worker_stats_of))]
pub(crate) fn worker_part(
    alloc: Global,
    instrs: &[Instr],
    limits: Limits,
) -> Result<Part, ReplaceError>
    requires sound { IsSound instrs.now }
    requires limits { AreInRange limits }
    ensures part { TightOrGives (λ part. homed_with part.directives.items part.store) result
        (worker_directives_of limits instrs.now) }
    ensures stats { TightOrGives (λ part. part.stats) result (worker_stats_of limits instrs.now) }
{
    match page_tight(instrs, limits.page) {
        Some(tight) => Err(ReplaceError::Tight(tight)),
        None => fitting_part(alloc, instrs, limits),
    }
}

// The same where each value fits a page. The list of the rule is made once, for the directives and for what is counted.
fn fitting_part(alloc: Global, instrs: &[Instr], limits: Limits) -> Result<Part, ReplaceError>
    requires sound { IsSound instrs.now }
    requires limits { AreInRange limits }
    requires fits { page_tight limits.page instrs.now ≡ None }
    ensures part { TightOrGives (λ part. homed_with part.directives.items part.store) result
        (fitting_directives_of limits instrs.now) }
    ensures stats { TightOrGives (λ part. part.stats) result (fitting_stats_of limits instrs.now) }
{
    let (places, trace) = placed(alloc, instrs, limits)?;
    let list = listed(alloc, instrs, &places, &trace, limits)?;
    let (directives, store) = scheduled(alloc, &list, limits)?;
    let stats = cost(instrs, &places, &trace, &list);
    Ok(Part {
        directives,
        store,
        stats,
    })
}

// The directives of a list with their store pages.
fn scheduled(
    alloc: Global,
    list: &[Replaced],
    limits: Limits,
) -> Result<(Vec<Directive>, u32), ReplaceError>
    requires { jobs_of list.now ≤ NEVER }
    ensures { TightOrGives (λ part. homed_with part.0.items part.1) result
        (unless_tight (buffer_tight limits.buffer list.now) (directives_of limits list.now)) }
{
    match schedule(alloc, list, limits.buffer, limits.ahead) {
        Ok(part) => Ok(part),
        Err(ScheduleError::Tight(tight)) => Err(ReplaceError::Tight(tight)),
        Err(ScheduleError::Memory) => Err(ReplaceError::Memory),
    }
}
