// `gen`: a source of a given size and its inputs, and the memory program of the source.
ghost use Rattle.std.specs.Prelude.{◌≡◌, ℕ, true, IfOk, IfErr};
ghost use Rattle.mage_gen.specs.Generator.{IsOrder, garbler_text, evaluator_text};
ghost use Rattle.mage_gen.specs.Source.{source_text};
ghost use Rattle.mage_instr.specs.Limits.{AreInRange};
ghost use Rattle.mage_words.specs.Answers.{gen_view};
ghost use Rattle.mage_words.specs.Words.{GenIsInRange};
ghost use Rattle.mage_planner.specs.Outcome.{gen_outcome, order_of};
ghost use Rattle.mage_planner.specs.Steps.{IsNoDeskFault, StepCounted};
ghost use Rattle.mage_planner.specs.Work.{CanBeRun, GivesSo, IsGenerationOf};

use crate::Refusal;
use crate::inputs::numbers;
use crate::plan::planned;
use crate::solo::parts_of;
use crate::sources::loaded;
use crate::stats::summary_text;
use crate::work::{Generating, Running};
use mage_gen::{GenOrder, Generated, generate};
use mage_instr::Party;
use mage_words::Gen;
use std::alloc::Global;

// What the source is to have.
fn order_of(request: &Gen<'_>) -> GenOrder
    requires range { GenIsInRange (gen_view request.now) }
    ensures order { result ≡ order_of (gen_view request.now) }
    ensures range { IsOrder result }
{
    GenOrder {
        items: request.items,
        rows: request.rows,
        workers: request.workers,
        number: request.number,
    }
}

// The source and its input texts.
fn made(alloc: Global, order: &GenOrder) -> Result<Generated, Refusal>
    requires range { IsOrder order.now }
    ensures text { IfOk result (λ made. made.text.items ≡ source_text order.now) }
    ensures garbler { IfOk result (λ made. made.garbler.items ≡ garbler_text order.now) }
    ensures evaluator { IfOk result (λ made. made.evaluator.items ≡ evaluator_text order.now) }
    ensures memory { IfErr result (λ why. why ≡ Refusal.Memory) }
{
    generate(alloc, order).map_err(|_| Refusal::Memory)
}

/// What `gen` writes and runs, found out in the order of work; no file is read.
pub fn generated<'a>(alloc: Global, request: Gen<'a>) -> Result<Generating<'a>, Refusal>
    requires limits { AreInRange request.limits }
    requires range { GenIsInRange (gen_view request) }
    ensures gives { GivesSo true IsGenerationOf result (gen_outcome (gen_view request.entry)) }
    ensures can { IfOk result (λ generating. CanBeRun generating.running) }
    ensures quiet { (faults : ℕ) → StepCounted faults faults result }
    ensures no_fault { IsNoDeskFault result }
{
    let order = order_of(&request);
    let made = made(alloc, &order)?;
    let loaded = loaded(alloc, &made.text)?;
    let planned = planned(alloc, &loaded, request.limits)?;
    let summary = summary_text(alloc, &planned.stats)?;
    let parts = parts_of(alloc, planned.program)?;
    let garbler = numbers(alloc, &made.garbler, &loaded.program, Party::Garbler)?;
    let evaluator = numbers(alloc, &made.evaluator, &loaded.program, Party::Evaluator)?;
    Ok(Generating {
        out: request.out,
        made,
        summary,
        running: Running {
            parts,
            garbler,
            evaluator,
        },
    })
}
