// The top call.
ghost use Rattle.std.specs.Prelude.{◌≡◌, ◌≢◌, ◌≤◌, ℕ, length, None, true, IsTrue, IfSome};
ghost use Rattle.mage_base.specs.Faults.{Rose};
ghost use Rattle.mage_words.specs.Words.{bytes_of_words};
ghost use Rattle.mage_parser.specs.Laws.{ReadingIsTheGrammar};
ghost use Rattle.mage_pipe.specs.Least.{ReadsAreLeast};
ghost use Rattle.mage_source_runs.specs.Moves.{PlansMoveAsCounted};
ghost use Rattle.mage_written.specs.Written.{PlansArePlans};
ghost use Rattle.mage_planner.specs.declared.refusal.Refusal.TheVariants as refusals;
ghost use Rattle.mage_planner.specs.Checking.{PlansAreCarried};
ghost use Rattle.mage_planner.specs.Finding.{GeneratedFilesAreFound};
ghost use Rattle.mage_planner.specs.Lines.{line_of};
ghost use Rattle.mage_planner.specs.Outcome.{asked_of, outcome_of, outcome_in};
ghost use Rattle.mage_planner.specs.Found.{Found};
ghost use Rattle.mage_planner.specs.SaysPlain.{EvaluatingSaysPlain};
ghost use Rattle.mage_planner.specs.Steps.{WorkCounted, IsNoDeskFault};
ghost use Rattle.mage_planner.specs.Upgrading.{EarlierFilesComeToTodays, UpgradesKeepCarried};
ghost use Rattle.mage_planner.specs.Answer.{Answers, Works, WritesNoFile, RunsNothing, AnswerCounted, reads_of, refusal_of, IsComplete, IsWordsOrMemory, HasRoom, TellsStores, StoresAreSound, StreamsAreRight};

use crate::command::work;
use crate::perform::perform;
use crate::warning::refuse;
use crate::{Refusal, Status};
use mage_base::Desk;
use std::alloc::Global;

// Does the work, and then what it comes to.
fn run<D: Desk>(alloc: Global, words: &[String], desk: &mut D) -> Result<(), Refusal>
    ensures told { IfSome (D.tells desk.old).files (λ files. Works (D.tells desk.old).steady
        (outcome_in files (bytes_of_words words.now)) result (D.tells desk.old)
        (D.tells desk.new)) }
    ensures some { (found : Found) × Works true (outcome_of found (bytes_of_words words.now))
        result (D.tells desk.old) (D.tells desk.new) }
    ensures cause { WorkCounted (D.tells desk.old).faults (D.tells desk.new).faults result }
    ensures steady { IsTrue (D.tells desk.old).steady → IfSome (D.tells desk.old).files (λ files.
        IsNoDeskFault (outcome_in files (bytes_of_words words.now))
        → HasRoom (D.tells desk.old) (outcome_in files (bytes_of_words words.now))
        → TellsStores (D.tells desk.old) (outcome_in files (bytes_of_words words.now))
        → StreamsAreRight (outcome_in files (bytes_of_words words.now))
        → IsNoDeskFault result × ((D.tells desk.new).faults ≡ (D.tells desk.old).faults)) }
    ensures sound { IsNoDeskFault result → StoresAreSound (D.tells desk.old) (D.tells desk.new) }
    ensures files { WritesNoFile (asked_of (bytes_of_words words.now))
        → (D.tells desk.new).files ≡ (D.tells desk.old).files }
    ensures stores { RunsNothing (asked_of (bytes_of_words words.now))
        → ((D.tells desk.new).returned ≡ (D.tells desk.old).returned)
        × ((D.tells desk.new).lent ≡ (D.tells desk.old).lent) }
    ensures rest { D.tells desk.new ≡ record (D.tells desk.old) {
      files = (D.tells desk.new).files;
      said = (D.tells desk.new).said;
      faults = (D.tells desk.new).faults;
      room = (D.tells desk.new).room;
      lent = (D.tells desk.new).lent;
      returned = (D.tells desk.new).returned;
    } }
{
    let work = work(alloc, words, desk)?;
    perform(alloc, desk, work)
}

/// Does what `mage_plan` does with these words (`mage_words::read_words`). `solo` reads the source, and the files that its driver
/// names, from the desk, makes the memory program within the limits, asks the desk for a store for each worker, runs the memory program
/// over them on one thread, and gives them back. In plain it says what was put out; over the garbler it fills the stream file of each
/// worker; over the evaluator it reads these, and says what is decoded. `stats` says what a plan for
/// the source costs. `plan` writes this plan, a memory program, and says what it costs. `check` says that a memory program carries the
/// source. `upgrade` writes a memory program of the file's first version in the second. `gen` writes a source of a given size and its
/// input texts, does with them what `solo` does, and says what `stats` says of the source and then what `solo` says. `deal` reads the
/// source, the evaluator's input text and a seed, and writes the labels that are dealt to each worker's evaluator, a file for each.
///
/// The work goes in this order, and the first thing that is wrong decides the status: words (`Words`), source fetched
/// (`Desk`), language (`Language`), limits (`Limits`; `deal` and `check` make no plan), for `check` and `upgrade` memory program
/// fetched, read and verified (`Desk`, `MemoryProgram`), for `check` compared (`CheckNo`), for `solo` garbler text fetched and read
/// (`Desk`, `InputText`), for `solo` and `deal` evaluator text likewise, for `solo` over the garbler and `deal` the seed likewise, for
/// `solo` over the evaluator the label file of each worker likewise; for `solo` stores asked for (`Desk`), stream files opened (`Desk`),
/// the run (`Store`, `Damaged`, for a stream that fails `Desk`, for one that isn't what is due `Stream`), stores given back; then files
/// are written and what is to be said is said (`Desk`). `gen` makes its source first, and writes its files before it asks for stores.
/// `Memory` may come at any step.
///
/// With any status but `Ok` one line is warned that says what is wrong and where. A warning that fails changes no
/// status.
pub fn planner<D: Desk>(alloc: Global, words: &[String], desk: &mut D) -> Status
    // Where the desk tells its files, they and the words decide; with Ok, just the outputs or the summary is said, for `gen` both,
    // and nothing is warned, and just the files of the command are written. With any other answer every other file stays, and
    // of its streams the first so many hold a front each of what they are to hold, while the others stay too.
    // What `solo` says is what the source means, and so is what `gen` says behind the summary; the store of each worker was read
    // and written just as often as the memory program has issues of reads and of writes. Where the desk's stores don't tell their
    // pages, another text may be said, or other bytes stand in the streams, but only if one of them answered a read with other
    // bytes than were last written, of the same SHA-256 digest.
    // Store comes only where the count of faults of the stores of the worker that the line names rose; Damaged only where the
    // desk's stores don't tell their pages, and that worker's answered a read of the page with another digest than it was written
    // with. Every store that was handed out is given back, with each answer. Stream comes only where a stream is read, and the line
    // names what is wrong with the desk's own; where something is wrong with one of them, Ok never comes: both unless stores deceived.
    ensures told { IfSome (D.tells desk.old).files (λ files. Answers (D.tells desk.old).steady
        (outcome_in files (bytes_of_words words.now)) result (D.tells desk.old)
        (D.tells desk.new)) }

    // Where it doesn't, some files do; a file that couldn't be read counts as absent.
    ensures some { (found : Found) × Answers true (outcome_of found (bytes_of_words words.now))
        result (D.tells desk.old) (D.tells desk.new) }

    // The tokens of a source are read just as the grammar has it.
    ensures reading { ReadingIsTheGrammar }

    // The reads that a summary says are the fewest that any plan of residency has.
    ensures fewest { ReadsAreLeast }

    // The reads and writes of a memory program that `solo` runs are those that the summary of its source says.
    ensures moves { PlansMoveAsCounted }

    // What `plan` writes of a source is the file of a plan of it, and is read back from it; `check` finds that it carries
    // the source.
    ensures plans { PlansArePlans }
    ensures carried { PlansAreCarried }

    // What `upgrade` writes carries a program just where what it read does; and a file that the passes made when each page
    // was stored under its own number becomes the one that `plan` writes now.
    ensures upgrades { UpgradesKeepCarried }
    ensures earlier { EarlierFilesComeToTodays }

    // What `gen` leaves is what `solo` and `stats` find that name its files.
    ensures generated { GeneratedFilesAreFound }

    // What `solo` says over the evaluator of labels that `deal` writes, and of streams that it garbles, by one seed, is what it says in
    // plain.
    ensures evaluated { EvaluatingSaysPlain }

    // Words comes just where the words ask for nothing that is built; only want of memory may come in its place.
    ensures words { (result ≡ Status.Words → asked_of (bytes_of_words words.now) ≡ None)
        × (asked_of (bytes_of_words words.now) ≡ None → IsWordsOrMemory result) }

    // Desk comes only where the count of faults rose. With Ok it stays.
    ensures cause { AnswerCounted (D.tells desk.old).faults (D.tells desk.new).faults result }

    // It doesn't give up but for want of memory, a damaged page where the desk's stores don't tell their pages, or what is wrong
    // with a stream that it reads.
    ensures complete { IfSome (D.tells desk.old).files (λ files.
        refusal_of (outcome_in files (bytes_of_words words.now)) ≡ None
        → (Rose (D.tells desk.old).faults (D.tells desk.new).faults → ⊥)
        → ((worker : ℕ) → Rose ((D.tells desk.old).returned worker).faults
        ((D.tells desk.new).returned worker).faults → ⊥)
        → IsComplete (D.tells desk.old).stores_tell_pages
        (reads_of (outcome_in files (bytes_of_words words.now))) result) }

    // A steady desk doesn't fail that has each file that the command reads, and room for what is said
    // and warned, and whose stores tell their pages where the command asks for some; nor do its stores, nor the streams that
    // it reads, where nothing is wrong with them.
    ensures steady { IsTrue (D.tells desk.old).steady → IfSome (D.tells desk.old).files (λ files.
        IsNoDeskFault (outcome_in files (bytes_of_words words.now))
        → HasRoom (D.tells desk.old) (outcome_in files (bytes_of_words words.now))
        → TellsStores (D.tells desk.old) (outcome_in files (bytes_of_words words.now))
        → StreamsAreRight (outcome_in files (bytes_of_words words.now))
        → length (line_of refusals.Memory) ≤ (D.tells desk.old).warn_room
        → ((D.tells desk.new).faults ≡ (D.tells desk.old).faults)
        × StoresAreSound (D.tells desk.old) (D.tells desk.new)
        × (result ≢ Status.Desk) × (result ≢ Status.Store) × (result ≢ Status.Damaged)
        × (result ≢ Status.Stream)) }

    // A command that writes no file leaves all files.
    ensures files { WritesNoFile (asked_of (bytes_of_words words.now))
        → (D.tells desk.new).files ≡ (D.tells desk.old).files }

    // A command that asks for no store leaves what stores that were given back came to.
    ensures stores { RunsNothing (asked_of (bytes_of_words words.now))
        → ((D.tells desk.new).returned ≡ (D.tells desk.old).returned)
        × ((D.tells desk.new).lent ≡ (D.tells desk.old).lent) }

    // All else that the desk tells stays, as whether it is steady.
    ensures rest { D.tells desk.new ≡ record (D.tells desk.old) {
      files = (D.tells desk.new).files;
      said = (D.tells desk.new).said;
      warned = (D.tells desk.new).warned;
      faults = (D.tells desk.new).faults;
      room = (D.tells desk.new).room;
      warn_room = (D.tells desk.new).warn_room;
      lent = (D.tells desk.new).lent;
      returned = (D.tells desk.new).returned;
    } }
{
    match run(alloc, words, desk) {
        Ok(()) => Status::Ok,
        Err(refusal) => refuse(alloc, desk, refusal).status(),
    }
}
