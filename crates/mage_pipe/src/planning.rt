// What a plan for a program costs, worker by worker.
ghost use Rattle.std.specs.Prelude.{◌≡◌, ◌≤◌, length, IfOk};
ghost use Rattle.std.specs.List.{All};
ghost use Rattle.mage_instr.specs.Limits.{AreInRange};
ghost use Rattle.mage_instr.specs.Opcodes.{most_workers};
ghost use Rattle.mage_instr.specs.Sound.{IsSound};
ghost use Rattle.mage_pipe.specs.Answer.{Gives};
ghost use Rattle.mage_pipe.specs.Loading.{loaded_of};
ghost use Rattle.mage_pipe.specs.Summary.{stats_of, tight_at, worker_stats_of, or_language, summary_of};

use crate::worker::worker_stats;
use crate::{Loaded, PlanFault, WorkerStats, load};
use mage_belady::ReplaceError;
use mage_instr::{Instr, Limits, Program};
use mage_lex::LangFault;
use sqlite_items::Items;
use std::alloc::Global;

/// What the plan for a program costs, worker by worker in order: how many instructions a worker has, on how many pages
/// its results stand, the most pages that one instruction needs, and how many times a page is read from the store and
/// written to it.
///
/// The plan is that of the passes in a row: `mage_place` gives each result its place, `mage_next` says when each page is
/// used next, and `mage_belady` lists the pages that come into the frames and leave them, by the rule of L. A. Belady,
/// "A study of replacement algorithms for a virtual-storage computer", IBM Systems Journal 5, 1966. Its reads are the
/// fewest that a plan of residency has (`reads_are_least`).
///
/// A program has at most 16 workers, and their instructions can run. `page` is the wires of a page, a power of two from
/// 64 to 65,536; there are 1 to 65,536 `frames` for pages, and 0 to 4,096 slots in the `buffer`, each for a page. Frames
/// and buffer have at most 4,194,304 wires together. `ahead` is at most 1,000,000, and changes nothing here.
///
/// `Tight` comes for the lowest worker to whom a limit is too low: `Frames` at the first instruction that needs more
/// pages than there are frames, and else `Buffer` where there is no slot, at the first instruction before which a page
/// is read or written. `Lang` never comes. `Memory` may come at any time.
///
/// One worker's lists are gone before the next worker's are made.
pub fn program_stats(
    alloc: Global,
    program: &Program,
    limits: Limits,
) -> Result<Vec<WorkerStats>, PlanFault>
    requires sound { All IsSound program.now.workers }
    requires few { length program.now.workers ≤ most_workers }
    requires limits { AreInRange limits }
    ensures stats { Gives (λ stats. stats.items) result (stats_of limits program.now.workers) }
{
    stats_of(alloc, program.workers.as_slice(), limits)
}

/// What the plan for a source costs: that of the program that it unrolls to, as `program_stats` has it.
///
/// `text` is the bytes of the source. `Lang` comes with its first fault, as `load` finds it; for a source without a
/// fault `Tight` comes as in `program_stats`. `Memory` may come at any time.
#[tactic(auto, unfolding(crate::specs::Summary::summary_of))]
pub fn summary(alloc: Global, text: &[u8], limits: Limits) -> Result<Vec<WorkerStats>, PlanFault>
    requires limits { AreInRange limits }
    ensures summary { Gives (λ stats. stats.items) result (summary_of limits text.now) }
{
    let loaded = loaded(alloc, text)?;
    program_stats(alloc, &loaded.program, limits)
}

// The source of a text, and its program.
pub(crate) fn loaded(alloc: Global, text: &[u8]) -> Result<Loaded, PlanFault>
    ensures loaded { Gives (λ loaded. loaded) result (or_language (loaded_of text.now)) }
    ensures sound { IfOk result (λ loaded. All IsSound loaded.program.workers) }
    ensures few { IfOk result (λ loaded. length loaded.program.workers ≤ most_workers) }
{
    match load(alloc, text) {
        Ok(loaded) => Ok(loaded),
        Err(LangFault::Memory) => Err(PlanFault::Memory),
        Err(fault) => Err(PlanFault::Lang(fault)),
    }
}

// The same of each worker, from 0.
fn stats_of(
    alloc: Global,
    workers: &[Items<Instr>],
    limits: Limits,
) -> Result<Vec<WorkerStats>, PlanFault>
    requires sound { All IsSound workers.now }
    requires few { length workers.now ≤ most_workers }
    requires limits { AreInRange limits }
    ensures { Gives (λ stats. stats.items) result (stats_of limits workers.now) }
{
    let mut all = Vec::new(alloc);
    for (worker, instrs) in workers.iter().enumerate() {
        let stats = stats_at(alloc, worker as u16, instrs.as_slice(), limits)?;
        all.push(stats).map_err(|_| PlanFault::Memory)?;
    }
    Ok(all)
}

// What the plan for one worker costs.
fn stats_at(
    alloc: Global,
    worker: u16,
    instrs: &[Instr],
    limits: Limits,
) -> Result<WorkerStats, PlanFault>
    requires sound { IsSound instrs.now }
    requires limits { AreInRange limits }
    ensures { Gives (λ stats. stats) result (tight_at worker (worker_stats_of limits instrs.now)) }
{
    match worker_stats(alloc, instrs, limits) {
        Ok(stats) => Ok(stats),
        Err(ReplaceError::Tight(tight)) => Err(PlanFault::Tight { worker, tight }),
        Err(ReplaceError::Memory) => Err(PlanFault::Memory),
    }
}
