// Four gate hashes at once.
ghost use Rattle.std.specs.Prelude.{◌≡◌, ◌<◌};
ghost use Rattle.mage_gate_hash.specs.Lanes.{lane};
ghost use Rattle.mage_label.specs.Labels.{hash_of, xor};
ghost use Rattle.sha2.specs.Sha256.{digest_bytes};

use crate::compression::first_half_after;
use crate::words::{block_words, label_of};
use mage_label::Label;
use std::simd::u32x4;

// Word by word, the blocks side by side.
#[inline(always)]
fn side_by_side(a: [u32; 16], b: [u32; 16], c: [u32; 16], d: [u32; 16]) -> [u32x4; 16]
    ensures { (lane 0 result ≡ a) × (lane 1 result ≡ b)
        × (lane 2 result ≡ c) × (lane 3 result ≡ d) }
{
    [
        u32x4::from_array([a[0], b[0], c[0], d[0]]),
        u32x4::from_array([a[1], b[1], c[1], d[1]]),
        u32x4::from_array([a[2], b[2], c[2], d[2]]),
        u32x4::from_array([a[3], b[3], c[3], d[3]]),
        u32x4::from_array([a[4], b[4], c[4], d[4]]),
        u32x4::from_array([a[5], b[5], c[5], d[5]]),
        u32x4::from_array([a[6], b[6], c[6], d[6]]),
        u32x4::from_array([a[7], b[7], c[7], d[7]]),
        u32x4::from_array([a[8], b[8], c[8], d[8]]),
        u32x4::from_array([a[9], b[9], c[9], d[9]]),
        u32x4::from_array([a[10], b[10], c[10], d[10]]),
        u32x4::from_array([a[11], b[11], c[11], d[11]]),
        u32x4::from_array([a[12], b[12], c[12], d[12]]),
        u32x4::from_array([a[13], b[13], c[13], d[13]]),
        u32x4::from_array([a[14], b[14], c[14], d[14]]),
        u32x4::from_array([a[15], b[15], c[15], d[15]]),
    ]
}

/// A worker's hashes of the labels of an AND's two inputs a and b: of each input's zero label and
/// of that xor R.
#[derive(Clone, Copy)]
pub struct GateHashes {
    pub a_zero: Label,
    pub a_one: Label,
    pub b_zero: Label,
    pub b_one: Label,
}

/// The four hashes that garbling an AND takes, from the zero labels of its inputs, `a` with tweak
/// `j` and `b` with tweak `k`, and the offset R. Each is what `mage_label::hash` gives.
pub fn gate_hashes(a: Label, b: Label, offset: Label, worker: u16, j: u64, k: u64) -> GateHashes
    ensures a_zero { result.a_zero ≡ hash_of a worker j }
    ensures a_one { result.a_one ≡ hash_of (xor a offset) worker j }
    ensures b_zero { result.b_zero ≡ hash_of b worker k }
    ensures b_one { result.b_one ≡ hash_of (xor b offset) worker k }
{
    let half = first_half_after(side_by_side(
        block_words(a, worker, j),
        block_words(a.xor(offset), worker, j),
        block_words(b, worker, k),
        block_words(b.xor(offset), worker, k),
    ));
    GateHashes {
        a_zero: label_at(&half, 0),
        a_one: label_at(&half, 1),
        b_zero: label_at(&half, 2),
        b_one: label_at(&half, 3),
    }
}

// The label whose words are in this lane.
#[inline(always)]
fn label_at(words: &[u32x4; 4], at: usize) -> Label
    requires { at < 4 }
    ensures { result.bytes ≡ digest_bytes (lane at words.now) 4 }
{
    label_of([
        words[0].to_array()[at],
        words[1].to_array()[at],
        words[2].to_array()[at],
        words[3].to_array()[at],
    ])
}
