// `solo` over the evaluator: the memory program of a source, and the labels of its inputs.
ghost use Rattle.std.specs.Prelude.{◌≡◌, ◌≤◌, ℕ, true, IfSome, IfOk};
ghost use Rattle.mage_instr.specs.Limits.{AreInRange};
ghost use Rattle.mage_words.specs.Words as words;
ghost use Rattle.mage_planner.specs.EvalAsked.{evaluation_asked};
ghost use Rattle.mage_planner.specs.Outcome.{eval_outcome};
ghost use Rattle.mage_planner.specs.Found.{Found, found_in};
ghost use Rattle.mage_planner.specs.Steps.{StepCounted};
ghost use Rattle.mage_planner.specs.Work.{CanBeEvaluated, GivesSo, IsEvaluationOf};

use crate::Refusal;
use crate::label_files::read_labels;
use crate::plan::planned;
use crate::solo::parts_of;
use crate::sources::read_source;
use crate::work::Evaluating;
use mage_base::Desk;
use mage_instr::Limits;
use std::alloc::Global;

/// What is to be evaluated, and over which files.
#[derive(Clone, Copy)]
pub struct EvalRequest<'a> {
    /// The file of the source.
    pub source: &'a str,
    pub limits: Limits,
    /// What the names of the stream files begin with.
    pub stream: &'a str,
    /// What the names of the label files begin with.
    pub labels: &'a str,
}

/// What `solo` evaluates, found out in the order of work.
#[tactic(auto, unfolding(crate::specs::Outcome::eval_outcome))]
pub fn evaluated<'a, D: Desk>(
    alloc: Global,
    request: EvalRequest<'a>,
    desk: &mut D,
) -> Result<Evaluating<'a>, Refusal>
    requires limits { AreInRange request.limits }
    ensures told { IfSome (D.tells desk.old).files (λ files.
        GivesSo (D.tells desk.old).steady IsEvaluationOf result
        (eval_outcome (found_in files (words.Solo (evaluation_asked request.entry)))
        request.entry.limits request.entry.stream.now)) }
    ensures some { (found : Found) × GivesSo true IsEvaluationOf result
        (eval_outcome found request.entry.limits request.entry.stream.now) }
    ensures can { IfOk result CanBeEvaluated }
    ensures cause { StepCounted (D.tells desk.old).faults (D.tells desk.new).faults result }
    ensures rest { D.tells desk.new
        ≡ record (D.tells desk.old) { faults = (D.tells desk.new).faults } }
{
    let loaded = read_source(alloc, desk, request.source)?;
    let planned = planned(alloc, &loaded, request.limits)?;
    let parts = parts_of(alloc, planned.program)?;
    let labels = read_labels(alloc, desk, request.labels, &loaded.program)?;
    Ok(Evaluating {
        parts,
        labels,
        stream: request.stream,
    })
}
