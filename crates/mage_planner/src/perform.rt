// Doing what a command comes to.
ghost use Rattle.std.specs.Prelude.{◌≡◌, ◌≢◌, ◌≤◌, [], length, IsTrue, IsSome};
ghost use Rattle.mage_planner.specs.Answer.{NothingIsWrong, ReadsThese, StoresAreSound};
ghost use Rattle.mage_planner.specs.Steps.{IsNoDeskFault};
ghost use Rattle.mage_planner.specs.Work.{CanBeDone, CanBeRun, IsRunOf, IsWorkOf, written_by};
ghost use Rattle.mage_planner.specs.Outcome.{Done};
ghost use Rattle.mage_planner.specs.Writing.{Finished, Performs};

use crate::Refusal;
use crate::evaluating::evaluate_and_say;
use crate::files::write_file;
use crate::garbling::garble;
use crate::generating::generate;
use crate::labels::deal_labels;
use crate::running::run;
use crate::work::{Running, Work, Writing};
use mage_base::{Desk, Failed};
use std::alloc::Global;

/// Says a text in one call.
pub fn say<D: Desk>(desk: &mut D, text: &[u8]) -> Result<(), Refusal>
    ensures performs { Finished text.now [] result (D.tells desk.old) (D.tells desk.new) }
    ensures steady { IsTrue (D.tells desk.old).steady
        → length text.now ≤ (D.tells desk.old).room → IsNoDeskFault result }
{
    match desk.say(text) {
        Ok(()) => Ok(()),
        Err(Failed) => Err(Refusal::Desk),
    }
}

// Writes a file, and then says the text, where there is one.
fn write_and_say<D: Desk>(alloc: Global, desk: &mut D, writing: &Writing<'_>) -> Result<(), Refusal>
    ensures performs { Finished (written_by writing.now).said (written_by writing.now).files result
        (D.tells desk.old) (D.tells desk.new) }
    ensures steady { IsTrue (D.tells desk.old).steady
        → length writing.now.text.items ≤ (D.tells desk.old).room → IsNoDeskFault result }
{
    write_file(alloc, desk, writing.name, &writing.bytes)?;
    if writing.text.is_empty() {
        return Ok(());
    }
    say(desk, &writing.text)
}

// Runs a memory program, and says the text of what it put out in one call.
fn run_and_say<D: Desk>(alloc: Global, desk: &mut D, running: Running) -> Result<(), Refusal>
    requires { CanBeRun running }
    ensures performs { (done : Done) → IsRunOf running done
        → Performs done result (D.tells desk.old) (D.tells desk.new) }
    ensures steady { (done : Done) → IsRunOf running done
        → IsTrue (D.tells desk.old).steady → IsTrue (D.tells desk.old).stores_tell_pages
        → length done.said ≤ (D.tells desk.old).room → IsNoDeskFault result }
    ensures sound { IsNoDeskFault result → StoresAreSound (D.tells desk.old) (D.tells desk.new) }
{
    let text = run(alloc, desk, running)?;
    say(desk, &text)
}

/// Does what a command comes to: says its text, writes its files, runs its memory program, or all of these.
pub fn perform<D: Desk>(alloc: Global, desk: &mut D, work: Work<'_>) -> Result<(), Refusal>
    requires { CanBeDone work }
    ensures performs { (done : Done) → IsWorkOf work.entry done
        → Performs done result (D.tells desk.old) (D.tells desk.new) }
    ensures steady { (done : Done) → IsWorkOf work.entry done → IsTrue (D.tells desk.old).steady
        → IsSome (D.tells desk.old).files
        → (done.moves ≢ [] → IsTrue (D.tells desk.old).stores_tell_pages)
        → ReadsThese (D.tells desk.old).files done.reads
        → NothingIsWrong (length done.moves) done.reads
        → length done.said ≤ (D.tells desk.old).room → IsNoDeskFault result
        × ((D.tells desk.new).faults ≡ (D.tells desk.old).faults) }
    ensures sound { IsNoDeskFault result → StoresAreSound (D.tells desk.old) (D.tells desk.new) }
{
    match work {
        Work::Say(text) => say(desk, &text),
        Work::Deal(dealing) => deal_labels(alloc, desk, &dealing),
        Work::Write(writing) => write_and_say(alloc, desk, &writing),
        Work::Run(running) => run_and_say(alloc, desk, running),
        Work::Garble(garbling) => garble(alloc, desk, garbling),
        Work::Evaluate(evaluating) => evaluate_and_say(alloc, desk, evaluating),
        Work::Generate(generating) => generate(alloc, desk, generating),
    }
}
