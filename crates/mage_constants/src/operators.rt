// Operators on constants.
ghost use Rattle.std.specs.Prelude.{◌≡◌, pos, neg_ℤ, ◌+ℤ◌, ◌-ℤ◌, ◌*ℤ◌, int_div, int_rem, Some, None, if◌then◌else◌};
ghost use Rattle.mage_constants.specs.Constants.{ranged, is_zero, operated};

use mage_lex::symbols::{DIVIDE, MINUS, PLUS, REMAINDER, TIMES};

/// A number that is written, where it is in the range of constants.
pub fn ranged(value: u128) -> Option<i128>
    ensures { result ≡ ranged (pos value) }
{
    if value < 1 << 127 {
        Some(value as i128)
    } else {
        None
    }
}

fn added(x: i128, y: i128) -> Option<i128>
    ensures { result ≡ ranged (x +ℤ y) }
{
    x.checked_add(y)
}

fn subtracted(x: i128, y: i128) -> Option<i128>
    ensures { result ≡ ranged (x -ℤ y) }
{
    x.checked_sub(y)
}

fn multiplied(x: i128, y: i128) -> Option<i128>
    ensures { result ≡ ranged (x *ℤ y) }
{
    x.checked_mul(y)
}

fn divided(x: i128, y: i128) -> Option<i128>
    ensures { result ≡ (if is_zero y then None else ranged (int_div x y)) }
{
    x.checked_div(y)
}

fn remainder(x: i128, y: i128) -> Option<i128>
    ensures { result ≡ (if is_zero y then None else Some (int_rem x y)) }
{
    if y == 0 {
        None
    } else {
        Some(x.wrapping_rem(y))
    }
}

/// A number with the other sign, where it is in range.
pub fn negated(x: i128) -> Option<i128>
    ensures { result ≡ ranged (neg_ℤ x) }
{
    x.checked_neg()
}

/// The operator of this row on two constants, where it has a value in range.
#[tactic(auto, unfolding(crate::specs::Constants::operated))]
pub fn operated(row: u8, x: i128, y: i128) -> Option<i128>
    ensures { result ≡ operated row x y }
{
    match row {
        PLUS => added(x, y),
        MINUS => subtracted(x, y),
        TIMES => multiplied(x, y),
        DIVIDE => divided(x, y),
        REMAINDER => remainder(x, y),
        _ => None,
    }
}
