// From a source to its memory program: the passes in a row, worker by worker.
ghost use Rattle.std.specs.Prelude.{◌≡◌, ◌≤◌, ◌*◌, ℕ, List, Ok, length, IfOk};
ghost use Rattle.std.specs.List.{All};
ghost use Rattle.mage_instr.specs.Limits.{AreInRange};
ghost use Rattle.mage_instr.specs.Opcodes.{most_workers};
ghost use Rattle.mage_instr.specs.Sound.{IsSound};
ghost use Rattle.mage_accepted.specs.Accepting.{directives_in, IsAccepted};
ghost use Rattle.mage_residency.specs.Carried.{HaveArguments};
ghost use Rattle.mage_schedulable.specs.PlanOf.{IsPlanOf};
ghost use Rattle.mage_unroll.specs.Limits.{MOST_INSTRS as most_instrs};
ghost use Rattle.mage_pipe.specs.Answer.{Gives};
ghost use Rattle.mage_pipe.specs.Loading.{loaded_of};
ghost use Rattle.mage_pipe.specs.MemoryProgram.{homed_with, worker_directives_of, memory_program_of, plan_of, IsPassed, IsPlanOfText};
ghost use Rattle.mage_pipe.specs.Summary.{tight_at, stats_of, worker_stats_of};

use crate::part::{Part, worker_part};
use crate::planning::loaded;
use crate::{Loaded, PlanFault, Planned};
use mage_belady::ReplaceError;
use mage_instr::{Instr, Limits, MemProgram, Program};
use sqlite_items::Items;
use std::alloc::Global;

/// The memory program of a source: the passes over the program that it unrolls to.
///
/// `text` is the bytes of the source. For each worker `mage_place` gives each result its place, `mage_next` says when each page is
/// used next, `mage_belady` lists the pages that come into the frames and leave them, and `mage_sched` issues and finishes each
/// read and each write in a slot of the buffer, on a page of the worker's store.
///
/// What it answers is a plan of the text, by a definition that knows no pass: it carries the program by the walk of
/// `mage_carry`; each instruction finds its values at the places of the rule, in frames that have their pages; each page comes in
/// new once; no plan of residency reads fewer pages; each read is issued in the gap of the formula; and the store pages, and
/// their number, are the homes of the pages that are transferred. And the verifier accepts it: each of its fields is in its
/// range, and it has no fault.
///
/// `Lang` comes with the first fault of the source, as `load` finds it. `Tight` comes for the lowest worker to whom a limit is too
/// low, and first of all where a value is wider than a page, else for the frames, else for the buffer, with the first such
/// instruction. `Memory` may come at any time.
///
/// One worker's lists are gone before the next worker's are made.
#[tactic(auto, unfolding(crate::specs::MemoryProgram::plan_of))]
pub fn plan(alloc: Global, text: &[u8], limits: Limits) -> Result<MemProgram, PlanFault>
    requires limits { AreInRange limits }
    ensures plan { Gives (λ plan. plan) result (plan_of limits text.now) }
    ensures is_plan { IfOk result (IsPlanOfText limits text.now) }
    ensures accepted { IfOk result IsAccepted }
{
    let loaded = loaded(alloc, text)?;
    memory_program(alloc, &loaded.program, limits)
}

/// The memory program of a program, as `plan` makes it of the one that a source unrolls to.
///
/// The program has at most 16 workers, and their instructions can run.
pub fn memory_program(
    alloc: Global,
    program: &Program,
    limits: Limits,
) -> Result<MemProgram, PlanFault>
    requires sound { All IsSound program.now.workers }
    requires few { length program.now.workers ≤ most_workers }
    requires limits { AreInRange limits }
    ensures plan { Gives (λ plan. plan) result (memory_program_of limits program.now.workers) }
    ensures is_plan { IfOk result (IsPlanOf limits program.now) }
    ensures passed { IfOk result (IsPassed limits program.now) }
{
    match whole(alloc, program, limits) {
        Ok(planned) => Ok(planned.program),
        Err(fault) => Err(fault),
    }
}

/// The memory program of a source that was loaded, and what it costs, with each pass made once: what `plan` and `summary` say of
/// the source's text.
///
/// `loaded` is what `load` made of some text; the text itself isn't needed. The program is a plan of the loaded one and is
/// accepted, as `plan` has it, and all workers' directives together are at most 18 for each instruction that a program may have.
/// There are as many statistics as workers, in order.
///
/// `Tight` comes as in `plan`, and `Lang` never. `Memory` may come at any time.
pub fn planned(alloc: Global, loaded: &Loaded, limits: Limits) -> Result<Planned, PlanFault>
    requires loaded { (text : List ℕ) × (loaded_of text ≡ Ok loaded.now) }
    requires limits { AreInRange limits }
    ensures program { Gives (λ planned. planned.program) result
        (memory_program_of limits loaded.now.program.workers) }
    ensures stats { Gives (λ planned. planned.stats.items) result
        (stats_of limits loaded.now.program.workers) }
    ensures is_plan { IfOk result (λ planned. IsPlanOf limits loaded.now.program planned.program) }
    ensures accepted { IfOk result (λ planned. IsAccepted planned.program) }
    ensures short { IfOk result (λ planned. directives_in planned.program ≤ 18 * most_instrs) }
{
    whole(alloc, &loaded.program, limits)
}

// The memory program of a program, and what it costs.
fn whole(alloc: Global, program: &Program, limits: Limits) -> Result<Planned, PlanFault>
    requires sound { All IsSound program.now.workers }
    requires few { length program.now.workers ≤ most_workers }
    requires limits { AreInRange limits }
    ensures plan { Gives (λ planned. planned.program) result
        (memory_program_of limits program.now.workers) }
    ensures stats { Gives (λ planned. planned.stats.items) result
        (stats_of limits program.now.workers) }
    ensures is_plan { IfOk result (λ planned. IsPlanOf limits program.now planned.program) }
    ensures passed { IfOk result (λ planned. IsPassed limits program.now planned.program) }
{
    parts_of(alloc, program.workers.as_slice(), limits)
}

// The parts of all workers, from 0, and what they cost.
fn parts_of(alloc: Global, workers: &[Items<Instr>], limits: Limits) -> Result<Planned, PlanFault>
    requires sound { All IsSound workers.now }
    requires few { length workers.now ≤ most_workers }
    requires limits { AreInRange limits }
    ensures plan { Gives (λ planned. planned.program) result (memory_program_of limits workers.now) }
    ensures stats { Gives (λ planned. planned.stats.items) result (stats_of limits workers.now) }
    ensures have { IfOk result (λ planned. All HaveArguments workers.now) }
{
    let mut stores = Items::new(alloc);
    let mut parts = Items::new(alloc);
    let mut all = Vec::new(alloc);
    for (worker, instrs) in workers.iter().enumerate() {
        let part = part_of(alloc, worker as u16, instrs.as_slice(), limits)?;
        all.push(part.stats).map_err(|_| PlanFault::Memory)?;
        stores.push(part.store).map_err(|_| PlanFault::Memory)?;
        parts
            .push(Items::from_vec(part.directives))
            .map_err(|_| PlanFault::Memory)?;
    }
    let program = MemProgram {
        limits,
        stores,
        workers: parts,
    };
    Ok(Planned {
        program,
        stats: all,
    })
}

// The part of one worker.
fn part_of(alloc: Global, worker: u16, instrs: &[Instr], limits: Limits) -> Result<Part, PlanFault>
    requires sound { IsSound instrs.now }
    requires limits { AreInRange limits }
    ensures part { Gives (λ part. homed_with part.directives.items part.store) result
        (tight_at worker (worker_directives_of limits instrs.now)) }
    ensures stats { Gives (λ part. part.stats) result
        (tight_at worker (worker_stats_of limits instrs.now)) }
    ensures have { HaveArguments instrs.now }
{
    read_all(instrs);
    match worker_part(alloc, instrs, limits) {
        Ok(part) => Ok(part),
        Err(ReplaceError::Tight(tight)) => Err(PlanFault::Tight { worker, tight }),
        Err(ReplaceError::Memory) => Err(PlanFault::Memory),
    }
}

// Each instruction has three arguments, as its type has it: what is read shows it.
fn read_all(instrs: &[Instr])
    ensures { HaveArguments instrs.now }
{
    for k in 0..instrs.len() {
        read(instrs[k]);
    }
}

fn read(instr: Instr)
    ensures { length instr.args ≡ 3 }
{}

#[cfg(test)]
mod tests;
