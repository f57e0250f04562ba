// The words of the block that a hash of a label compresses, and the label that words give.
ghost use Rattle.std.specs.Prelude.{◌≡◌};
ghost use Rattle.mage_label.specs.Labels.{hash_message};
ghost use Rattle.sha2.specs.Sha256.{digest_bytes, first_words, padded_message};

use mage_label::Label;

// The first byte of the message.
const HASH: u8 = 0x02;

// The byte behind the message.
const END: u8 = 0x80;

// How many bits the message has: 27 bytes.
const BITS: u32 = 216;

/// The words of the block that a worker's hash of a label with this tweak compresses: the message,
/// its padding and its length.
#[inline(always)]
pub(crate) fn block_words(label: Label, worker: u16, tweak: u64) -> [u32; 16]
    ensures { result ≡ first_words (padded_message (hash_message label.bytes worker tweak)) 16 }
{
    let b = label.bytes;
    let [w0, w1] = worker.to_be_bytes();
    let [t0, t1, t2, t3, t4, t5, t6, t7] = tweak.to_be_bytes();
    [
        u32::from_be_bytes([HASH, b[0], b[1], b[2]]),
        u32::from_be_bytes([b[3], b[4], b[5], b[6]]),
        u32::from_be_bytes([b[7], b[8], b[9], b[10]]),
        u32::from_be_bytes([b[11], b[12], b[13], b[14]]),
        u32::from_be_bytes([b[15], w0, w1, t0]),
        u32::from_be_bytes([t1, t2, t3, t4]),
        u32::from_be_bytes([t5, t6, t7, END]),
        0,
        0,
        0,
        0,
        0,
        0,
        0,
        0,
        BITS,
    ]
}

/// The label whose bytes are those of four words.
#[inline(always)]
pub(crate) fn label_of(words: [u32; 4]) -> Label
    ensures { result.bytes ≡ digest_bytes words 4 }
{
    let [a, b, c, d] = words;
    let [a0, a1, a2, a3] = a.to_be_bytes();
    let [b0, b1, b2, b3] = b.to_be_bytes();
    let [c0, c1, c2, c3] = c.to_be_bytes();
    let [d0, d1, d2, d3] = d.to_be_bytes();
    Label {
        bytes: [
            a0, a1, a2, a3, b0, b1, b2, b3, c0, c1, c2, c3, d0, d1, d2, d3,
        ],
    }
}
