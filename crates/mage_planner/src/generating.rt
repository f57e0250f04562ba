// A generated source is written, and its memory program is run.
ghost use Rattle.std.specs.Prelude.{◌≡◌, ◌≤◌, ◌++◌, ◌∷◌, [], List, length, IsTrue, IfOk, IfErr, string_bytes};
ghost use Rattle.std.specs.List.{concat};
ghost use Rattle.mage_planner.specs.Answer.{StoresAreSound};
ghost use Rattle.mage_planner.specs.Outcome.{Done, ending_file, generates};
ghost use Rattle.mage_planner.specs.Steps.{IsNoDeskFault};
ghost use Rattle.mage_planner.specs.Work.{CanBeRun, IsGenerationOf, IsRunOf, files_by};
ghost use Rattle.mage_planner.specs.Writing.{Performs, Writes};

use crate::Refusal;
use crate::files::write_file;
use crate::perform::say;
use crate::running::run;
use crate::work::{Generating, Running};
use mage_base::Desk;
use std::alloc::{AllocError, Global};

// The name of a file.
fn file_name(alloc: Global, stem: &str, ending: &str) -> Result<String, AllocError>
    ensures { IfOk result (λ name.
        string_bytes name ≡ concat (stem.now ∷ ending.now ∷ [])) }
{
    format!(in alloc; "{stem}{ending}")
}

// Writes the file whose name has this ending.
fn write_ending<D: Desk>(
    alloc: Global,
    desk: &mut D,
    stem: &str,
    ending: &str,
    bytes: &[u8],
) -> Result<(), Refusal>
    ensures writes { Writes (ending_file stem.now ending.now bytes.now ∷ []) result
        (D.tells desk.old) (D.tells desk.new) }
    ensures steady { IsTrue (D.tells desk.old).steady → IsNoDeskFault result }
{
    let Ok(name) = file_name(alloc, stem, ending) else {
        return Err(Refusal::Memory);
    };
    write_file(alloc, desk, name.as_str(), bytes)
}

// Writes the source, and then the input text of each party.
fn write_generated<D: Desk>(
    alloc: Global,
    desk: &mut D,
    generating: &Generating<'_>,
) -> Result<(), Refusal>
    ensures writes { Writes (files_by generating.now) result
        (D.tells desk.old) (D.tells desk.new) }
    ensures steady { IsTrue (D.tells desk.old).steady → IsNoDeskFault result }
{
    let stem = generating.out;
    write_ending(alloc, desk, stem, ".mage", &generating.made.text)?;
    write_ending(alloc, desk, stem, ".garbler", &generating.made.garbler)?;
    write_ending(alloc, desk, stem, ".evaluator", &generating.made.evaluator)
}

// A text behind another.
fn behind(summary: Vec<u8>, text: &[u8]) -> Result<Vec<u8>, Refusal>
    ensures text { IfOk result (λ both. both.items ≡ summary.items ++ text.now) }
    ensures memory { IfErr result (λ why. why ≡ Refusal.Memory) }
{
    let mut both = summary;
    both.extend_from_slice(text).map_err(|_| Refusal::Memory)?;
    Ok(both)
}

// Runs a memory program, and says the text of what it put out behind a summary, in one call.
fn run_and_say_behind<D: Desk>(
    alloc: Global,
    desk: &mut D,
    summary: Vec<u8>,
    running: Running,
) -> Result<(), Refusal>
    requires { CanBeRun running }
    ensures performs { (done : Done) → IsRunOf running done
        → Performs (generates [] summary.items done) result (D.tells desk.old) (D.tells desk.new) }
    ensures steady { (done : Done) → IsRunOf running done
        → IsTrue (D.tells desk.old).steady → IsTrue (D.tells desk.old).stores_tell_pages
        → length (generates [] summary.items done).said ≤ (D.tells desk.old).room
        → IsNoDeskFault result }
    ensures sound { IsNoDeskFault result → StoresAreSound (D.tells desk.old) (D.tells desk.new) }
{
    let text = run(alloc, desk, running)?;
    let both = behind(summary, &text)?;
    say(desk, &both)
}

/// Writes a generated source and its input texts, runs its memory program, and says the summary and then what was put out, in one
/// call.
pub fn generate<D: Desk>(
    alloc: Global,
    desk: &mut D,
    generating: Generating<'_>,
) -> Result<(), Refusal>
    requires { CanBeRun generating.running }
    ensures performs { (done : Done) → IsGenerationOf generating.entry done
        → Performs done result (D.tells desk.old) (D.tells desk.new) }
    ensures steady { (done : Done) → IsGenerationOf generating.entry done
        → IsTrue (D.tells desk.old).steady → IsTrue (D.tells desk.old).stores_tell_pages
        → length done.said ≤ (D.tells desk.old).room → IsNoDeskFault result }
    ensures sound { IsNoDeskFault result → StoresAreSound (D.tells desk.old) (D.tells desk.new) }
{
    write_generated(alloc, desk, &generating)?;
    let Generating {
        summary,
        running,
        ..
    } = generating;
    run_and_say_behind(alloc, desk, summary, running)
}
