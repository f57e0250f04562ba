// One AND, garbled.
ghost use Rattle.std.specs.Prelude.{◌≡◌, ◌<◌, ◌^◌};
ghost use Rattle.mage_halfgates.specs.HalfGates.{and_zero, tables_of};
ghost use Rattle.mage_label.specs.Labels.{lsb, xor_times};
ghost use Rattle.mage_streams.specs.Garbling.{colour_of};

use mage_gate_hash::gate_hashes;
use mage_label::Label;

/// An AND of two wires, garbled: its table for each half, and its own zero label.
#[derive(Clone, Copy)]
pub(crate) struct GarbledAnd {
    pub(crate) generator: Label,
    pub(crate) evaluator: Label,
    pub(crate) zero: Label,
}

/// a xor bit * b.
pub(crate) fn xor_times(a: Label, bit: bool, b: Label) -> Label
    ensures { result ≡ xor_times a bit b }
{
    if bit { a.xor(b) } else { a }
}

/// Garbles a worker's AND of wires with the zero labels `a` and `b`; it is the worker's AND number `gate`, from 0.
#[tactic(auto, unfolding(mage_halfgates::specs::HalfGates::tables_of, mage_halfgates::specs::HalfGates::generator_half, mage_halfgates::specs::HalfGates::evaluator_half))]
pub(crate) fn garble_and(a: Label, b: Label, offset: Label, worker: u16, gate: u64) -> GarbledAnd
    requires { gate < 2 ^ 63 }
    ensures generator { result.generator ≡ (tables_of offset worker gate a b).generator }
    ensures evaluator { result.evaluator ≡ (tables_of offset worker gate a b).evaluator }
    ensures zero { result.zero ≡ and_zero offset worker gate a b }
{
    let hashes = gate_hashes(a, b, offset, worker, 2 * gate, 2 * gate + 1);
    let generator = xor_times(hashes.a_zero.xor(hashes.a_one), b.lsb(), offset);
    let evaluator = hashes.b_zero.xor(hashes.b_one).xor(a);
    let generator_half = xor_times(hashes.a_zero, a.lsb(), generator);
    let evaluator_half = xor_times(hashes.b_zero, b.lsb(), evaluator.xor(a));
    GarbledAnd {
        generator,
        evaluator,
        zero: generator_half.xor(evaluator_half),
    }
}

/// The lowest bit of a label, as a byte.
pub(crate) fn colour(label: Label) -> u8
    ensures { result ≡ colour_of label }
{
    u8::from(label.lsb())
}
