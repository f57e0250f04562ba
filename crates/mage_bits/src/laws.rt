// Laws of bits and numbers.
ghost use Rattle.std.specs.Prelude.{◌≡◌, ◌<◌, ◌%◌, ◌^◌, ◌==◌, ℕ, Bool, List, Some, length, slice_get};
ghost use Rattle.std.specs.Int.{bit_at};
ghost use Rattle.mage_bits.specs.Bits.{bits, number};
ghost use Rattle.mage_bits.specs.Modular.{add_mod, sub_mod, mul_mod, and_mod, or_mod, xor_mod, not_mod, eq_mod, lt_mod, shl_mod, shr_mod, resize_mod, div_mod, rem_mod, count_mod, min_mod, max_mod};

/// What holds of all digits and numbers: the number of the n lowest digits of v is v modulo 2 to the n; the i-th
/// of them is the i-th binary digit of v; and digits write a number below 2 to their count, whose digits they are.
pub fn laws_of_bits()
    ensures remainder { (v n : ℕ) → number (bits v n) ≡ v % 2 ^ n }
    ensures place { (v n i : ℕ) → i < n → slice_get (bits v n) i ≡ Some (bit_at v i == 1) }
    ensures count { (v n : ℕ) → length (bits v n) ≡ n }
    ensures below { (digits : List Bool) → number digits < 2 ^ length digits }
    ensures back { (digits : List Bool) → bits (number digits) (length digits) ≡ digits }
{}

/// What holds of all numbers below 2 to the width: each operation gives such a number, a test gives 1 or 0, and a
/// difference and the number that was taken away give the first number back.
pub fn laws_of_modular_arithmetic()
    ensures arithmetic { (width a b : ℕ) → (add_mod width a b < 2 ^ width)
        × (sub_mod width a b < 2 ^ width) × (mul_mod width a b < 2 ^ width) }
    ensures bitwise { (width a b : ℕ) → a < 2 ^ width → b < 2 ^ width
        → (and_mod width a b < 2 ^ width) × (or_mod width a b < 2 ^ width)
        × (xor_mod width a b < 2 ^ width) × (not_mod width a < 2 ^ width) }
    ensures tests { (width a b : ℕ) → (eq_mod width a b < 2) × (lt_mod width a b < 2) }
    ensures shifts { (width a amount : ℕ) → a < 2 ^ width
        → (shl_mod width a amount < 2 ^ width) × (shr_mod width a amount < 2 ^ width) }
    ensures division { (width a b : ℕ) → a < 2 ^ width
        → (div_mod width a b < 2 ^ width) × (rem_mod width a b < 2 ^ width) }
    ensures counts { (width a b : ℕ) → a < 2 ^ width → b < 2 ^ width
        → (count_mod width a < 2 ^ width)
        × (min_mod width a b < 2 ^ width) × (max_mod width a b < 2 ^ width) }
    ensures resized { (width a : ℕ) → resize_mod width a < 2 ^ width }
    ensures difference { (width a b : ℕ) → a < 2 ^ width → b < 2 ^ width
        → add_mod width (sub_mod width a b) b ≡ a }
{}
