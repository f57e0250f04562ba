// A memory program is evaluated over stores of the desk, and over the stream files of its workers.
ghost use Rattle.std.specs.Prelude.{◌≡◌, ◌≤◌, ℕ, List, length, map, IsTrue, IsSome};
ghost use Rattle.mage_base.specs.Desk.{DeskTold};
ghost use Rattle.mage_lending.specs.Names.{spelled};
ghost use Rattle.mage_lending.specs.Stores.{told_on};
ghost use Rattle.mage_planner.specs.Answer.{NothingIsWrong, ReadsThese, StoresAreSound};
ghost use Rattle.mage_planner.specs.EvalRan.{EvaluatedSo, EvaluatesSo, HasStreams, IsUnstopped, evaluation_stopped_by};
ghost use Rattle.mage_planner.specs.Outcome.{Done, stream_refusal};
ghost use Rattle.mage_planner.specs.Ran.{HasLent};
ghost use Rattle.mage_planner.specs.Steps.{IsNoDeskFault};
ghost use Rattle.mage_planner.specs.Work.{CanBeEvaluated, IsEvaluationOf};
ghost use Rattle.mage_planner.specs.Writing.{Performs};

use crate::garbling::unopened;
use crate::perform::say;
use crate::running::{lend, orders_of, text_of};
use crate::work::Evaluating;
use crate::{Refusal, StreamFault};
use mage_base::Desk;
use mage_core::RunFault;
use mage_instr::DriverFault;
use mage_lending::{WorkerSources, close_sources, give_stores_back, open_sources};
use mage_solo::{Evaluated, run_evaluating};
use mage_verify::Part;
use std::alloc::Global;

// What stopped a driver: its source, and so the desk, or what is wrong with its stream.
fn of_driver(worker: u16, fault: DriverFault) -> Refusal
    ensures { result ≡ stream_refusal worker fault }
{
    match fault {
        DriverFault::Sink => Refusal::Desk,
        DriverFault::Source => Refusal::Desk,
        DriverFault::Short { at } => Refusal::Stream {
            worker,
            fault: StreamFault::Short { at },
        },
        DriverFault::Long { at } => Refusal::Stream {
            worker,
            fault: StreamFault::Long { at },
        },
        DriverFault::Colour { at } => Refusal::Stream {
            worker,
            fault: StreamFault::Colour { at },
        },
    }
}

// What stopped a run.
fn of_fault(fault: RunFault) -> Refusal
    ensures { result ≡ evaluation_stopped_by fault }
{
    match fault {
        RunFault::Store { worker } => Refusal::Store { worker },
        RunFault::Damaged { worker, damage } => Refusal::Damaged { worker, damage },
        RunFault::Driver { worker, fault } => of_driver(worker, fault),
        RunFault::Memory => Refusal::Memory,
    }
}

// How many workers the parts are of.
fn workers_of(parts: &[Part]) -> u16
    requires { length parts.now ≤ 65535 }
    ensures { result ≡ length parts.now }
{
    parts.len() as u16
}

// Evaluates over streams that were just opened, and over stores that were just lent; gives these back and closes those in every case.
fn evaluate_over<D: Desk>(
    alloc: Global,
    desk: &mut D,
    evaluating: Evaluating<'_>,
    stores: Vec<Vec<D::Pages>>,
    streams: WorkerSources<D::Input>,
) -> Result<Vec<Vec<u128>>, RunFault>
    requires can { CanBeEvaluated evaluating }
    requires opened { (before : DeskTold) × HasStreams before evaluating
        (told_on D.Pages.tells stores.items) (spelled streams.names.items)
        (map D.Input.tells streams.sources.items) (D.tells desk.old) }
    ensures ends { (done : Done) (before : DeskTold) → IsEvaluationOf evaluating.entry done
        → HasStreams before evaluating.entry (told_on D.Pages.tells stores.items)
        (spelled streams.names.items) (map D.Input.tells streams.sources.items) (D.tells desk.old)
        → EvaluatedSo done result before (D.tells desk.new) }
    ensures sound { (before : DeskTold) → HasStreams before evaluating.entry
        (told_on D.Pages.tells stores.items) (spelled streams.names.items)
        (map D.Input.tells streams.sources.items) (D.tells desk.old)
        → IsUnstopped result → StoresAreSound before (D.tells desk.new) }
    ensures steady { (done : Done) (before : DeskTold) → IsEvaluationOf evaluating.entry done
        → HasStreams before evaluating.entry (told_on D.Pages.tells stores.items)
        (spelled streams.names.items) (map D.Input.tells streams.sources.items) (D.tells desk.old)
        → IsTrue before.steady → IsTrue before.stores_tell_pages → IsSome before.files
        → ReadsThese before.files done.reads → NothingIsWrong (length done.moves) done.reads
        → IsUnstopped result × ((D.tells desk.new).faults ≡ before.faults) }
{
    let Evaluating {
        parts,
        labels,
        stream: _,
    } = evaluating;
    let WorkerSources { names, sources } = streams;
    let Evaluated {
        outcome,
        sources,
        stores,
    } = run_evaluating(alloc, parts, labels, sources, stores);
    give_stores_back(desk, stores);
    close_sources(desk, names.as_slice(), sources);
    outcome
}

// The text of what was put out, or what stopped the run.
fn said(alloc: Global, outcome: Result<Vec<Vec<u128>>, RunFault>) -> Result<Vec<u8>, Refusal>
    ensures ran { (done : Done) (before after : DeskTold) → EvaluatedSo done outcome before after
        → EvaluatesSo done result before after }
    ensures unstopped { IsUnstopped outcome → IsNoDeskFault result }
    ensures stopped { IsNoDeskFault result → IsUnstopped outcome }
{
    match outcome {
        Ok(outputs) => text_of(alloc, &outputs),
        Err(fault) => Err(of_fault(fault)),
    }
}

// Opens the streams, and evaluates over stores that were just lent, which are given back in every case.
fn evaluate_lent<D: Desk>(
    alloc: Global,
    desk: &mut D,
    evaluating: Evaluating<'_>,
    stores: Vec<Vec<D::Pages>>,
) -> Result<Vec<u8>, Refusal>
    requires can { CanBeEvaluated evaluating }
    requires lent { (before : DeskTold) × HasLent 16 before evaluating.parts.items
        (told_on D.Pages.tells stores.items) (D.tells desk.old) }
    ensures ran { (done : Done) (before : DeskTold) → IsEvaluationOf evaluating.entry done
        → HasLent 16 before evaluating.entry.parts.items (told_on D.Pages.tells stores.items)
        (D.tells desk.old) → EvaluatesSo done result before (D.tells desk.new) }
    ensures sound { (before : DeskTold) → HasLent 16 before evaluating.entry.parts.items
        (told_on D.Pages.tells stores.items) (D.tells desk.old)
        → IsNoDeskFault result → StoresAreSound before (D.tells desk.new) }
    ensures steady { (done : Done) (before : DeskTold) → IsEvaluationOf evaluating.entry done
        → HasLent 16 before evaluating.entry.parts.items (told_on D.Pages.tells stores.items)
        (D.tells desk.old)
        → IsTrue before.steady → IsTrue before.stores_tell_pages → IsSome before.files
        → ReadsThese before.files done.reads → NothingIsWrong (length done.moves) done.reads
        → IsNoDeskFault result × ((D.tells desk.new).faults ≡ before.faults) }
{
    let workers = workers_of(&evaluating.parts);
    match open_sources(alloc, desk, evaluating.stream, workers) {
        Ok(streams) => said(
            alloc,
            evaluate_over(alloc, desk, evaluating, stores, streams),
        ),
        Err(error) => {
            give_stores_back(desk, stores);
            Err(unopened(error))
        }
    }
}

// Evaluates a memory program, and gives the text of what was put out: asks for the stores of its workers, in their order, opens
// their stream files, runs, gives the stores back and closes the files in every case.
fn evaluate<D: Desk>(
    alloc: Global,
    desk: &mut D,
    evaluating: Evaluating<'_>,
) -> Result<Vec<u8>, Refusal>
    requires { CanBeEvaluated evaluating }
    ensures ran { (done : Done) → IsEvaluationOf evaluating.entry done
        → EvaluatesSo done result (D.tells desk.old) (D.tells desk.new) }
    ensures sound { IsNoDeskFault result → StoresAreSound (D.tells desk.old) (D.tells desk.new) }
    ensures steady { (done : Done) → IsEvaluationOf evaluating.entry done
        → IsTrue (D.tells desk.old).steady → IsTrue (D.tells desk.old).stores_tell_pages
        → IsSome (D.tells desk.old).files → ReadsThese (D.tells desk.old).files done.reads
        → NothingIsWrong (length done.moves) done.reads
        → IsNoDeskFault result × ((D.tells desk.new).faults ≡ (D.tells desk.old).faults) }
{
    let orders = orders_of(alloc, &evaluating.parts, 16)?;
    let stores = lend(alloc, desk, &orders)?;
    evaluate_lent(alloc, desk, evaluating, stores)
}

/// Evaluates a memory program, and says the text of what was put out in one call.
pub fn evaluate_and_say<D: Desk>(
    alloc: Global,
    desk: &mut D,
    evaluating: Evaluating<'_>,
) -> Result<(), Refusal>
    requires { CanBeEvaluated evaluating }
    ensures performs { (done : Done) → IsEvaluationOf evaluating.entry done
        → Performs done result (D.tells desk.old) (D.tells desk.new) }
    ensures steady { (done : Done) → IsEvaluationOf evaluating.entry done
        → IsTrue (D.tells desk.old).steady → IsTrue (D.tells desk.old).stores_tell_pages
        → IsSome (D.tells desk.old).files → ReadsThese (D.tells desk.old).files done.reads
        → NothingIsWrong (length done.moves) done.reads
        → length done.said ≤ (D.tells desk.old).room → IsNoDeskFault result
        × ((D.tells desk.new).faults ≡ (D.tells desk.old).faults) }
    ensures sound { IsNoDeskFault result → StoresAreSound (D.tells desk.old) (D.tells desk.new) }
{
    let text = evaluate(alloc, desk, evaluating)?;
    say(desk, &text)
}
