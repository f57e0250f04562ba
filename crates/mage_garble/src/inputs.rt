// The labels of inputs and outputs, and what is said of them.
ghost use Rattle.std.specs.Prelude.{◌≡◌, ◌≤◌, ◌<◌, ◌+◌, ◌*◌, ◌^◌, length, map};
ghost use Rattle.mage_bits.specs.Bits.{bits};
ghost use Rattle.mage_streams.specs.Garbling.{active_labels, bytes_of, colour_of, zero_labels};
ghost use Rattle.mage_garble.specs.Sending.{most_waiting, with_waiting};

use crate::gates::{colour, xor_times};
use crate::outgoing::Outgoing;
use mage_base::Sink;
use mage_label::{Label, input_label};

// Numbers of wires and gates run modulo this.
pub(crate) const NUMBERS: u64 = 1 << 63;

/// The zero labels of a worker's input wires, from this one on.
pub(crate) fn label_inputs(seed: &[u8; 32], worker: u16, first: u64, into: &mut [Label])
    requires { first < 2 ^ 63 }
    ensures { into.new ≡ zero_labels seed.now worker first (length into.old) }
{
    let mut wire = first;
    for i in 0..into.len() {
        into[i] = input_label(seed, worker, wire);
        wire = (wire + 1) % NUMBERS;
    }
}

/// Says the active labels of wires with these zero labels, whose values are the lowest bits of a number.
pub(crate) fn say_active<K: Sink>(
    out: &mut Outgoing<K>,
    offset: Label,
    value: u128,
    zeros: &[Label],
)
    requires { length out.old.sending.waiting + 16 * length zeros.now ≤ most_waiting }
    ensures { out.new ≡ record out.old {
      sending = with_waiting out.old.sending
          (bytes_of (active_labels offset zeros.now (bits value (length zeros.now))));
    } }
{
    let mut left = value;
    for zero in zeros {
        let active = xor_times(*zero, left % 2 == 1, offset);
        out.add(&active.bytes);
        left /= 2;
    }
}

/// Says the colours of wires with these zero labels.
pub(crate) fn say_colours<K: Sink>(out: &mut Outgoing<K>, wires: &[Label])
    requires { length out.old.sending.waiting + length wires.now ≤ most_waiting }
    ensures { out.new ≡ record out.old { sending = with_waiting out.old.sending (map colour_of wires.now) } }
{
    for wire in wires {
        out.add(&[colour(*wire)]);
    }
}
