// One AND, evaluated.
ghost use Rattle.std.specs.Prelude.{◌≡◌, ◌<◌, ◌^◌};
ghost use Rattle.mage_halfgates.specs.HalfGates.{Tables, and_label};
ghost use Rattle.mage_label.specs.declared.labels.Label.{Label};
ghost use Rattle.mage_label.specs.Labels.{lsb, xor_times};

use mage_label::{Label, hash};

// a xor bit * b.
fn xor_times(a: Label, bit: bool, b: Label) -> Label
    ensures { result ≡ xor_times a bit b }
{
    if bit { a.xor(b) } else { a }
}

/// The active label of a worker's AND of wires with the active labels `a` and `b`, from the AND's two tables; it is the worker's
/// AND number `gate`, from 0.
#[tactic(auto, unfolding(mage_halfgates::specs::HalfGates::generator_half, mage_halfgates::specs::HalfGates::evaluator_half))]
pub(crate) fn evaluate_and(
    a: Label,
    b: Label,
    generator: Label,
    evaluator: Label,
    worker: u16,
    gate: u64,
) -> Label
    requires { gate < 2 ^ 63 }
    ensures { result ≡ and_label worker gate (record { generator = generator; evaluator = evaluator }) a b }
{
    let generator_half = xor_times(hash(a, worker, 2 * gate), a.lsb(), generator);
    let evaluator_half = xor_times(hash(b, worker, 2 * gate + 1), b.lsb(), evaluator.xor(a));
    generator_half.xor(evaluator_half)
}
