// Constants as numbers in a range, and conditions on them.
ghost use Rattle.std.specs.Prelude.{◌≡◌, ◌<◌, ◌^◌, IfSome};
ghost use Rattle.mage_constants.specs.Ranges.{number_below, size_in, holds};

use crate::tokens::row_of;
use mage_lex::Token;
use mage_lex::symbols::EQUALS;

/// The number, where it is from 0 to below the limit.
pub fn number_below(limit: u128, number: i128) -> Option<u128>
    ensures value { result ≡ number_below limit number }
    ensures in_range { IfSome result (λ value. value < limit) }
{
    if 0 <= number && number.unsigned_abs() < limit {
        Some(number.unsigned_abs())
    } else {
        None
    }
}

/// The number, where it is from 0 on.
pub fn size_in(number: i128) -> Option<u128>
    ensures { result ≡ size_in number }
{
    if 0 <= number {
        Some(number.unsigned_abs())
    } else {
        None
    }
}

/// Whether a condition holds: by `==` that two constants are equal, by `<` that the first is less.
pub fn holds(operator: &Token, a: i128, b: i128) -> bool
    ensures { result ≡ holds operator.now a b }
{
    if row_of(operator) == EQUALS {
        a == b
    } else {
        a < b
    }
}
