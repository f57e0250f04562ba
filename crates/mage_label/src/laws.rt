// Laws of labels.
ghost use Rattle.std.specs.Prelude.{◌≡◌, ℕ, List, IsTrue};
ghost use Rattle.std.specs.Bool.{xor as xor_bits};
ghost use Rattle.mage_label.specs.declared.labels.Label.{Label};
ghost use Rattle.mage_label.specs.Labels.{IsWhole, blank, digest_label, hash_of, lsb, offset_of, with_lsb, xor};

/// What holds of all labels of 16 bytes: xor is associative and commutative, a label xored twice
/// cancels, and the lowest bit of an xor is the xor of the lowest bits. Every label made here has
/// 16 bytes, and the lowest bit of an offset is 1.
pub fn laws_of_labels()
    ensures associative { (a b c : Label) → xor (xor a b) c ≡ xor a (xor b c) }
    ensures commutative { (a b : Label) → xor a b ≡ xor b a }
    ensures neutral { (a : Label) → IsWhole a → xor a blank ≡ a }
    ensures cancels { (a b : Label) → IsWhole a → IsWhole b → xor (xor a b) b ≡ a }
    ensures self_inverse { (a : Label) → IsWhole a → xor a a ≡ blank }
    ensures lowest_bit { (a b : Label) → IsWhole a → IsWhole b
        → lsb (xor a b) ≡ xor_bits (lsb a) (lsb b) }
    ensures odd { (seed : List ℕ) → IsTrue (lsb (offset_of seed)) }
    ensures whole_xor { (a b : Label) → IsWhole a → IsWhole b → IsWhole (xor a b) }
    ensures whole_digest { (message : List ℕ) → IsWhole (digest_label message) }
    ensures whole_offset { (seed : List ℕ) → IsWhole (offset_of seed) }
    ensures whole_hash { (label : Label) (worker j : ℕ) → IsWhole (hash_of label worker j) }
{}
