// The binary digits of a number, and the number that digits write.
ghost use Rattle.std.specs.Prelude.{◌≡◌, ◌≤◌, IfOk, length};
ghost use Rattle.mage_bits.specs.Bits.{bits, number};

use mage_base::Memory;
use std::alloc::Global;

/// The `count` lowest binary digits of a number, lowest first. Those above the highest are 0.
pub fn bits_of(alloc: Global, value: u128, count: u8) -> Result<Vec<bool>, Memory>
    ensures { IfOk result (λ digits. digits.items ≡ bits value count) }
{
    let mut digits = Vec::with_capacity(alloc, usize::from(count))?;
    let mut left = value;
    for _place in 0..count {
        digits.push(left % 2 == 1)?;
        left /= 2;
    }
    Ok(digits)
}

/// The number that at most 128 binary digits write, lowest first.
pub fn number_of(bits: &[bool]) -> u128
    requires { length bits.now ≤ 128 }
    ensures { result ≡ number bits.now }
{
    let mut sum = 0;
    for (place, bit) in bits.iter().enumerate() {
        if *bit {
            sum += 1 << place;
        }
    }
    sum
}
