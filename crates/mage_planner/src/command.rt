// What a command does, found out in the order of work.
ghost use Rattle.std.specs.Prelude.{◌≡◌, ◌≤◌, ℕ, Bool, Result, Some, length, ok_or, true, IfSome, IfOk};
ghost use Rattle.mage_instr.specs.Opcodes.{most_workers};
ghost use Rattle.mage_words.specs.Words.{LimitsAreInRange, NumbersAreInRange, bytes_of_words};
ghost use Rattle.mage_instr.specs.Limits.{AreInRange};
ghost use Rattle.mage_words.specs.Answers.{driver_view, request_view, solo_view};
ghost use Rattle.mage_words.specs.Words as words;
ghost use Rattle.mage_planner.specs.Outcome.{Done, asked_of, driven_outcome, says, outcome_for, outcome_of, outcome_in};
ghost use Rattle.mage_planner.specs.Found.{Found, found_in};
ghost use Rattle.mage_planner.specs.Steps.{Gives, StepCounted, IsNoDeskFault};
ghost use Rattle.mage_planner.specs.Work.{CanBeDone, CanBeEvaluated, CanBeGarbled, CanBeRun, GivesSo, IsEvaluationOf, IsGarblingOf, IsGenerationOf, IsRunOf, IsWorkOf, dealt_by, written_by};

use crate::Refusal;
use crate::check::check;
use crate::deal::deal;
use crate::eval::{EvalRequest, evaluated};
use crate::garble::{GarbleRequest, garble};
use crate::generated::generated;
use crate::plan::plan;
use crate::solo::solo;
use crate::stats::stats;
use crate::upgrade::upgrade;
use crate::work::{Dealing, Evaluating, Garbling, Generating, Running, Work, Writing};
use mage_base::Desk;
use mage_words::{Driver, Request, Solo, WordsFault, read_words};
use std::alloc::Global;

// What the words ask for.
fn asked(alloc: Global, words: &[String]) -> Result<Request<'_>, Refusal>
    ensures quiet { (faults : ℕ) → StepCounted faults faults result }
    ensures no_fault { IsNoDeskFault result }
    ensures asked { Gives true request_view result
        (ok_or (asked_of (bytes_of_words words.now)) Refusal.Words) }
    ensures in_range { IfOk result (λ request. LimitsAreInRange (request_view request)) }
    ensures numbers { IfOk result (λ request. NumbersAreInRange (request_view request)) }
{
    match read_words(alloc, words) {
        Ok(request) => Ok(request),
        Err(WordsFault::Words) => Err(Refusal::Words),
        Err(WordsFault::Memory) => Err(Refusal::Memory),
    }
}

// What `solo` comes to over its driver.
fn driven<'a, D: Desk>(alloc: Global, request: Solo<'a>, desk: &mut D) -> Result<Work<'a>, Refusal>
    requires limits { AreInRange request.limits }
    ensures told { IfSome (D.tells desk.old).files (λ files. GivesSo (D.tells desk.old).steady
        IsWorkOf result (driven_outcome (solo_view request.entry).driver
        (found_in files (words.Solo (solo_view request.entry))) (solo_view request.entry))) }
    ensures some { (found : Found) × GivesSo true IsWorkOf result (driven_outcome
        (solo_view request.entry).driver found (solo_view request.entry)) }
    ensures can { IfOk result CanBeDone }
    ensures cause { StepCounted (D.tells desk.old).faults (D.tells desk.new).faults result }
    ensures rest { D.tells desk.new
        ≡ record (D.tells desk.old) { faults = (D.tells desk.new).faults } }
{
    match request.driver {
        Driver::Plain { .. } => to_run(solo(alloc, request, desk)),
        Driver::Garble {
            garbler,
            seed,
            stream,
        } => {
            let request = GarbleRequest {
                source: request.source,
                limits: request.limits,
                garbler,
                seed,
                stream,
            };
            to_garble(garble(alloc, request, desk))
        }
        Driver::Eval { stream, labels } => {
            let request = EvalRequest {
                source: request.source,
                limits: request.limits,
                stream,
                labels,
            };
            to_evaluate(evaluated(alloc, request, desk))
        }
    }
}

// What a request comes to.
fn answer<'a, D: Desk>(
    alloc: Global,
    request: Request<'a>,
    desk: &mut D,
) -> Result<Work<'a>, Refusal>
    requires limits { LimitsAreInRange (request_view request) }
    requires numbers { NumbersAreInRange (request_view request) }
    ensures told { IfSome (D.tells desk.old).files (λ files. GivesSo (D.tells desk.old).steady
        IsWorkOf result
        (outcome_for (found_in files (request_view request.entry)) (request_view request.entry))) }
    ensures some { (found : Found) × GivesSo true IsWorkOf result
        (outcome_for found (request_view request.entry)) }
    ensures can { IfOk result CanBeDone }
    ensures cause { StepCounted (D.tells desk.old).faults (D.tells desk.new).faults result }
    ensures rest { D.tells desk.new
        ≡ record (D.tells desk.old) { faults = (D.tells desk.new).faults } }
{
    match request {
        Request::Solo(request) => driven(alloc, request, desk),
        Request::Stats(request) => said(stats(alloc, request, desk)),
        Request::Deal(request) => dealt(deal(alloc, request, desk)),
        Request::Plan(request) => written(plan(alloc, request, desk)),
        Request::Check(request) => said(check(alloc, request, desk)),
        Request::Upgrade(request) => written(upgrade(alloc, request, desk)),
        Request::Gen(request) => to_generate(generated(alloc, request)),
    }
}

// A text is to be said.
fn said<'a>(text: Result<Vec<u8>, Refusal>) -> Result<Work<'a>, Refusal>
    ensures gives { (steady : Bool) (outcome : Result Done Refusal)
        → Gives steady (λ text. says text.items) text outcome → GivesSo steady IsWorkOf result outcome }
    ensures counts { (before now : ℕ) → StepCounted before now text → StepCounted before now result }
    ensures can { IfOk result CanBeDone }
{
    match text {
        Ok(text) => Ok(Work::Say(text)),
        Err(refusal) => Err(refusal),
    }
}

// Labels are to be dealt.
fn dealt<'a>(dealing: Result<Dealing<'a>, Refusal>) -> Result<Work<'a>, Refusal>
    requires { IfOk dealing (λ dealing. length dealing.program.workers ≤ most_workers) }
    ensures gives { (steady : Bool) (outcome : Result Done Refusal)
        → Gives steady dealt_by dealing.entry outcome → GivesSo steady IsWorkOf result outcome }
    ensures counts { (before now : ℕ) → StepCounted before now dealing.entry
        → StepCounted before now result }
    ensures can { IfOk result CanBeDone }
{
    match dealing {
        Ok(dealing) => Ok(Work::Deal(dealing)),
        Err(refusal) => Err(refusal),
    }
}

// A file is to be written.
fn written<'a>(writing: Result<Writing<'a>, Refusal>) -> Result<Work<'a>, Refusal>
    ensures gives { (steady : Bool) (outcome : Result Done Refusal)
        → Gives steady written_by writing.entry outcome → GivesSo steady IsWorkOf result outcome }
    ensures counts { (before now : ℕ) → StepCounted before now writing.entry
        → StepCounted before now result }
    ensures can { IfOk result CanBeDone }
{
    match writing {
        Ok(writing) => Ok(Work::Write(writing)),
        Err(refusal) => Err(refusal),
    }
}

// A memory program is to be run.
fn to_run<'a>(running: Result<Running, Refusal>) -> Result<Work<'a>, Refusal>
    requires { IfOk running CanBeRun }
    ensures gives { (steady : Bool) (outcome : Result Done Refusal)
        → GivesSo steady IsRunOf running outcome → GivesSo steady IsWorkOf result outcome }
    ensures counts { (before now : ℕ) → StepCounted before now running
        → StepCounted before now result }
    ensures can { IfOk result CanBeDone }
{
    match running {
        Ok(running) => Ok(Work::Run(running)),
        Err(refusal) => Err(refusal),
    }
}

// A source is to be written, and its memory program to be run.
fn to_generate<'a>(generating: Result<Generating<'a>, Refusal>) -> Result<Work<'a>, Refusal>
    requires { IfOk generating (λ generating. CanBeRun generating.running) }
    ensures gives { (steady : Bool) (outcome : Result Done Refusal)
        → GivesSo true IsGenerationOf generating.entry outcome → GivesSo steady IsWorkOf result outcome }
    ensures counts { (before now : ℕ) → StepCounted before now generating.entry
        → StepCounted before now result }
    ensures can { IfOk result CanBeDone }
{
    match generating {
        Ok(generating) => Ok(Work::Generate(generating)),
        Err(refusal) => Err(refusal),
    }
}

// A memory program is to be garbled.
fn to_garble<'a>(garbling: Result<Garbling<'a>, Refusal>) -> Result<Work<'a>, Refusal>
    requires { IfOk garbling CanBeGarbled }
    ensures gives { (steady : Bool) (outcome : Result Done Refusal)
        → GivesSo steady IsGarblingOf garbling.entry outcome
        → GivesSo steady IsWorkOf result outcome }
    ensures counts { (before now : ℕ) → StepCounted before now garbling.entry
        → StepCounted before now result }
    ensures can { IfOk result CanBeDone }
{
    match garbling {
        Ok(garbling) => Ok(Work::Garble(garbling)),
        Err(refusal) => Err(refusal),
    }
}

// A memory program is to be evaluated.
fn to_evaluate<'a>(evaluating: Result<Evaluating<'a>, Refusal>) -> Result<Work<'a>, Refusal>
    requires { IfOk evaluating CanBeEvaluated }
    ensures gives { (steady : Bool) (outcome : Result Done Refusal)
        → GivesSo steady IsEvaluationOf evaluating.entry outcome
        → GivesSo steady IsWorkOf result outcome }
    ensures counts { (before now : ℕ) → StepCounted before now evaluating.entry
        → StepCounted before now result }
    ensures can { IfOk result CanBeDone }
{
    match evaluating {
        Ok(evaluating) => Ok(Work::Evaluate(evaluating)),
        Err(refusal) => Err(refusal),
    }
}

/// What the words' command does, found out in the order of work.
#[tactic(auto, unfolding(crate::specs::Outcome::outcome_of))]
pub fn work<'a, D: Desk>(
    alloc: Global,
    words: &'a [String],
    desk: &mut D,
) -> Result<Work<'a>, Refusal>
    ensures told { IfSome (D.tells desk.old).files (λ files. GivesSo (D.tells desk.old).steady
        IsWorkOf result (outcome_in files (bytes_of_words words.now))) }
    ensures some { (found : Found) × GivesSo true IsWorkOf result
        (outcome_of found (bytes_of_words words.now)) }
    ensures can { IfOk result CanBeDone }
    ensures cause { StepCounted (D.tells desk.old).faults (D.tells desk.new).faults result }
    ensures rest { D.tells desk.new
        ≡ record (D.tells desk.old) { faults = (D.tells desk.new).faults } }
{
    let request = asked(alloc, words)?;
    answer(alloc, request, desk)
}
