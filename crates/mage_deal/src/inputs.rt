// The labels of one input.
ghost use Rattle.std.specs.Prelude.{◌≡◌, ◌<◌, ◌^◌, ◌++◌, drop, OnOk};
ghost use Rattle.mage_bits.specs.Bits.{bits};
ghost use Rattle.mage_label.specs.Labels.{offset_of, xor_times};
ghost use Rattle.mage_streams.specs.Numbers.{next_value};
ghost use Rattle.mage_streams.specs.Garbling.{active_labels, bytes_of, zero_labels};

use mage_base::Memory;
use mage_label::{Label, input_label, offset};

// Numbers of wires run modulo this.
pub(crate) const NUMBERS: u64 = 1 << 63;

// The active label of a wire with this zero label.
fn active(zero: Label, value: bool, offset: Label) -> Label
    ensures { result ≡ xor_times zero value offset }
{
    if value { zero.xor(offset) } else { zero }
}

/// The first of the values, and 0 past the last.
pub(crate) fn next_value(values: &[u128]) -> u128
    ensures { result ≡ next_value values.now }
{
    match values.split_first() {
        Some((value, _)) => *value,
        None => 0,
    }
}

/// The values behind the first.
pub(crate) fn behind_first(values: &[u128]) -> &[u128]
    ensures { result.now ≡ drop 1 values.now }
{
    match values.split_first() {
        Some((_, others)) => others,
        None => values,
    }
}

/// Adds the active labels of an input's wires, from this one on. Their values are the lowest bits of a number.
pub(crate) fn add_active(
    bytes: &mut Vec<u8>,
    seed: &[u8; 32],
    worker: u16,
    first: u64,
    count: u8,
    value: u128,
) -> Result<(), Memory>
    requires { first < 2 ^ 63 }
    ensures { OnOk result (bytes.new.items ≡ bytes.old.items ++ bytes_of
        (active_labels (offset_of seed.now) (zero_labels seed.now worker first count) (bits value count))) }
{
    let offset = offset(seed);
    let mut wire = first;
    let mut left = value;
    for _ in 0..count {
        let label = active(input_label(seed, worker, wire), left % 2 == 1, offset);
        bytes.extend_from_slice(&label.bytes)?;
        wire = (wire + 1) % NUMBERS;
        left /= 2;
    }
    Ok(())
}
