// The labels that a seed gives, and the hash of a label.
ghost use Rattle.std.specs.Prelude.{◌≡◌, ◌++◌, ℕ, List};
ghost use Rattle.std.specs.Int.{to_be_bytes, w16, w64};
ghost use Rattle.sha2.specs.Sha256.{sha256};
ghost use Rattle.mage_label.specs.Labels.{digest_label, hash_message, hash_of, input_label_of, offset_of};

use crate::labels::Label;
use sha2::{Digest, Sha256};

// The first byte of a message: what is asked for.
const OFFSET: u8 = 0x00;

const INPUT: u8 = 0x01;

const HASH: u8 = 0x02;

/// The offset R of a seed: the label of a wire's 1 is that of its 0, xor R. Its lowest bit is set.
pub fn offset(seed: &[u8; 32]) -> Label
    ensures { result ≡ offset_of seed.now }
{
    let mut hasher = Sha256::new();
    hasher.update(seed);
    hasher.update([OFFSET]);
    first_half(&hasher.finalize()).with_lsb()
}

/// The zero label of a worker's input wire `i`, counted from 0 over the inputs of both parties.
pub fn input_label(seed: &[u8; 32], worker: u16, i: u64) -> Label
    ensures { result ≡ input_label_of seed.now worker i }
{
    let mut hasher = Sha256::new();
    hasher.update(seed);
    hasher.update([INPUT]);
    hasher.update(place(worker, i));
    first_half(&hasher.finalize())
}

/// A worker's hash of a label with tweak `j`, for the half gates.
#[tactic(auto, unfolding(crate::specs::Labels::hash_of))]
pub fn hash(label: Label, worker: u16, j: u64) -> Label
    ensures { result ≡ hash_of label worker j }
{
    first_half(&Sha256::digest(message(label, worker, j)))
}

fn message(label: Label, worker: u16, j: u64) -> [u8; 27]
    ensures { result ≡ hash_message label.bytes worker j }
{
    let mut message = [HASH; 27];
    message[1..17].copy_from_slice(&label.bytes);
    message[17..27].copy_from_slice(&place(worker, j));
    message
}

// A worker and a number of its own.
fn place(worker: u16, number: u64) -> [u8; 10]
    ensures { result ≡ to_be_bytes w16 worker ++ to_be_bytes w64 number }
{
    let mut bytes = [0; 10];
    bytes[..2].copy_from_slice(&worker.to_be_bytes());
    bytes[2..10].copy_from_slice(&number.to_be_bytes());
    bytes
}

// The first 16 bytes of a digest.
#[tactic(auto, unfolding(crate::specs::Labels::digest_label))]
fn first_half(digest: &[u8; 32]) -> Label
    ensures { (m : List ℕ) → digest.now ≡ sha256 m → result ≡ digest_label m }
{
    let mut bytes = [0; 16];
    bytes.copy_from_slice(&digest[..16]);
    Label { bytes }
}
