// `stats`: what a plan for a source costs.
ghost use Rattle.std.specs.Prelude.{◌≡◌, ℕ, Ok, true, IfSome, IfOk, OnOk, ◌++◌, string_bytes};
ghost use Rattle.mage_instr.specs.Limits.{AreInRange};
ghost use Rattle.mage_words.specs.Answers.{stats_view};
ghost use Rattle.mage_words.specs.Words as words;
ghost use Rattle.mage_planner.specs.SummaryText.{summary_line, summary_text};
ghost use Rattle.mage_planner.specs.Outcome.{says, stats_outcome};
ghost use Rattle.mage_planner.specs.Found.{Found, found_in};
ghost use Rattle.mage_planner.specs.Steps.{Gives, StepCounted, IsNoDeskFault};

use crate::Refusal;
use crate::sources::{costs, read_source};
use mage_base::{Desk, Memory};
use mage_pipe::WorkerStats;
use mage_words::Stats;
use std::alloc::Global;

// Adds the line of a worker.
fn add_line(text: &mut String, worker: usize, stats: &WorkerStats) -> Result<(), Memory>
    ensures { OnOk result
        (string_bytes text.new ≡ string_bytes text.old ++ summary_line worker stats.now) }
{
    let WorkerStats {
        instructions,
        pages,
        needs,
        reads,
        writes,
    } = *stats;
    writeln!(
        text,
        "worker {worker} instructions {instructions} pages {pages} needs {needs} reads {reads} writes {writes}"
    )?;
    Ok(())
}

// The lines of the workers.
fn lines(alloc: Global, workers: &[WorkerStats]) -> Result<String, Memory>
    ensures { IfOk result (λ text. string_bytes text ≡ summary_text workers.now) }
{
    let mut text = String::new(alloc);
    for (worker, stats) in workers.iter().enumerate() {
        add_line(&mut text, worker, stats)?;
    }
    Ok(text)
}

/// What is said of a summary.
pub fn summary_text(alloc: Global, workers: &[WorkerStats]) -> Result<Vec<u8>, Refusal>
    ensures quiet { (faults : ℕ) → StepCounted faults faults result }
    ensures no_fault { IsNoDeskFault result }
    ensures text { Gives true (λ text. says text.items) result
        (Ok (says (summary_text workers.now))) }
{
    match lines(alloc, workers) {
        Ok(text) => Ok(text.into_bytes()),
        Err(Memory) => Err(Refusal::Memory),
    }
}

/// What `stats` says, found out in the order of work.
#[tactic(auto, unfolding(crate::specs::Outcome::stats_outcome))]
pub fn stats<D: Desk>(alloc: Global, stats: Stats<'_>, desk: &mut D) -> Result<Vec<u8>, Refusal>
    requires limits { AreInRange stats.limits }
    ensures told { IfSome (D.tells desk.old).files (λ files. Gives (D.tells desk.old).steady
        (λ text. says text.items) result
        (stats_outcome (found_in files (words.Stats (stats_view stats.entry)))
        (stats_view stats.entry))) }
    ensures some { (found : Found) × Gives true (λ text. says text.items) result
        (stats_outcome found (stats_view stats.entry)) }
    ensures cause { StepCounted (D.tells desk.old).faults (D.tells desk.new).faults result }
    ensures rest { D.tells desk.new
        ≡ record (D.tells desk.old) { faults = (D.tells desk.new).faults } }
{
    let loaded = read_source(alloc, desk, stats.source)?;
    let costs = costs(alloc, &loaded, stats.limits)?;
    summary_text(alloc, &costs)
}
