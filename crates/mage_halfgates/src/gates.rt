// The laws of half gates.
ghost use Rattle.std.specs.Prelude.{◌≡◌, ℕ, List, Bool, ◌&&◌, not};
ghost use Rattle.std.specs.Bool.{xor as xor_bits};
ghost use Rattle.mage_halfgates.specs.HalfGates.{IsActive, IsOffset, and_label, and_zero, constant_zero, decoded_bit, tables_of};
ghost use Rattle.mage_label.specs.declared.labels.Label.{Label};
ghost use Rattle.mage_label.specs.Labels.{IsWhole, blank, lsb, offset_of, input_label_of, xor, xor_times};

/// What holds of labels under half gates: where each argument of a gate has, at the evaluator, the
/// zero label of the garbler, xor R where its value is 1, so has the result. Inputs and constants
/// have such labels, and the lowest bits of both labels of a wire give its value.
pub fn laws_of_half_gates()
    ensures offset { (seed : List ℕ) → IsOffset (offset_of seed) }
    ensures input { (seed : List ℕ) (worker i : ℕ) (value : Bool)
        → let offset = offset_of seed in
        let zero = input_label_of seed worker i in
        IsActive offset zero value (xor_times zero value offset) }
    ensures constant { (offset : Label) (value : Bool) → IsOffset offset
        → IsActive offset (constant_zero offset value) value blank }
    ensures xor_gate { (offset a b x y : Label) (u v : Bool) → IsOffset offset
        → IsActive offset a u x → IsActive offset b v y
        → IsActive offset (xor a b) (xor_bits u v) (xor x y) }
    ensures not_gate { (offset a x : Label) (u : Bool) → IsOffset offset
        → IsActive offset a u x → IsActive offset (xor a offset) (not u) x }
    ensures and_gate { (offset a b x y : Label) (u v : Bool) (worker gate : ℕ) → IsOffset offset
        → IsActive offset a u x → IsActive offset b v y
        → IsActive offset (and_zero offset worker gate a b) (u && v)
        (and_label worker gate (tables_of offset worker gate a b) x y) }
    ensures decoding { (offset zero active : Label) (value : Bool) → IsOffset offset
        → IsActive offset zero value active → decoded_bit (lsb zero) active ≡ value }
{}
