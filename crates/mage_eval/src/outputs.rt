// The values of outputs, and the end of a stream.
ghost use Rattle.std.specs.Prelude.{◌≡◌, ◌≤◌, ◌∷◌, List, None, length, drop, IfErr, IfOk, IsTrue, OnOk};
ghost use Rattle.mage_bits.specs.Bits.{number};
ghost use Rattle.mage_label.specs.declared.labels.Label.{Label};
ghost use Rattle.mage_halfgates.specs.HalfGates.{decoded_bit};
ghost use Rattle.mage_streams.specs.Evaluating.{decoded_bits};
ghost use Rattle.mage_eval.specs.Reading.{Fails, ReadsColour, ReadsColours, wrong_at_colours, wrong_at_end};

use crate::incoming::Stream;
use mage_base::Source;
use mage_bits::number_of;
use mage_instr::DriverFault;
use mage_label::Label;

// The colour that a stream has next.
fn read_colour<R: Source>(stream: &mut Stream<R>) -> Result<bool, DriverFault>
    ensures read { IfOk result (λ colour. ReadsColour stream.old stream.new colour) }
    ensures told { stream.new.told ≡ stream.old.told }
    ensures steady { stream.new.steady ≡ stream.old.steady }
    ensures fails { (wire : Label) → (wires : List Label) → IfErr result
        (λ f. Fails (wrong_at_colours (wire ∷ wires) stream.old.at stream.old.left) stream.old stream.new f) }
{
    if let Err(fault) = stream.begin(1) {
        return Err(fault);
    }
    let at = stream.place();
    let mut byte = [0];
    stream.read(&mut byte);
    match byte[0] {
        0 => Ok(false),
        1 => Ok(true),
        _ => Err(DriverFault::Colour { at }),
    }
}

// The bit of a wire with this active label, whose zero label has this colour.
fn decoded(colour: bool, wire: Label) -> bool
    ensures { result ≡ decoded_bit colour wire }
{
    let low = wire.lsb();
    if colour { !low } else { low }
}

/// The value of an output, of which the stream has a colour for each wire.
pub(crate) fn read_value<R: Source>(
    stream: &mut Stream<R>,
    wires: &[Label],
) -> Result<u128, DriverFault>
    requires { length wires.now ≤ 128 }
    ensures value { IfOk result (λ value. IsTrue stream.old.told
        → value ≡ number (decoded_bits wires.now stream.old.left)) }
    ensures read { OnOk result (ReadsColours wires.now stream.old stream.new) }
    ensures told { stream.new.told ≡ stream.old.told }
    ensures steady { stream.new.steady ≡ stream.old.steady }
    ensures fails { IfErr result
        (λ f. Fails (wrong_at_colours wires.now stream.old.at stream.old.left) stream.old stream.new f) }
{
    let mut bits = [false; 128];
    for (i, wire) in wires.iter().enumerate() {
        match read_colour(stream) {
            Ok(colour) => bits[i] = decoded(colour, *wire),
            Err(fault) => return Err(fault),
        }
    }
    Ok(number_of(&bits[..wires.len()]))
}

/// That the stream has ended.
pub(crate) fn read_end<R: Source>(stream: &mut Stream<R>) -> Result<(), DriverFault>
    ensures ended { OnOk result (IsTrue stream.old.told → wrong_at_end stream.old.at stream.old.left ≡ None) }
    ensures rest { OnOk result (stream.new ≡ record stream.old { left = stream.new.left; ready = stream.new.ready }) }
    ensures same { OnOk result (IsTrue stream.old.told → stream.new.left ≡ stream.old.left) }
    ensures told { stream.new.told ≡ stream.old.told }
    ensures steady { stream.new.steady ≡ stream.old.steady }
    ensures fails { IfErr result
        (λ f. Fails (wrong_at_end stream.old.at stream.old.left) stream.old stream.new f) }
{
    match stream.hold(1) {
        Ok(true) => Err(DriverFault::Long { at: stream.place() }),
        Ok(false) => Ok(()),
        Err(fault) => Err(fault),
    }
}
