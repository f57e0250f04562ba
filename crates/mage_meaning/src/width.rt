// Widths of numbers.
ghost use Rattle.std.specs.Prelude.{◌≡◌, ◌≤◌, ◌-◌, ◌^◌, ◌%◌};
ghost use Rattle.mage_meaning.specs.Value.{width_or_one};
ghost use Rattle.mage_tree.specs.Words.{MOST_WIDTH as most_width};

use mage_lex::Token;
use mage_tree::{bytes_of, width_of_type};
use std::marker::Model;

/// A width in bits, at most 128.
#[derive(Clone, Copy, Debug)]
pub struct Width {
    bits: u8,
}

impl Model for Width {
    ghost use Rattle.std.specs.Prelude.{ℕ, ◌≤◌};
    ghost use Rattle.mage_tree.specs.Words.{MOST_WIDTH as most_width};

    ghost Value = { ℕ };

    ghost view = { λ w. w.bits };

    ghost invariant = { λ w. w.bits ≤ most_width };

    ghost inverse = { λ bits. record { bits = bits } };
}

impl Width {
    /// The width of so many bits.
    pub fn new(bits: u8) -> Self
        requires { bits ≤ most_width }
        ensures { result ≡ bits }
    {
        Width { bits }
    }

    /// The greatest number of the width: each bit is 1.
    pub fn mask(self) -> u128
        ensures value { result ≡ 2 ^ self - 1 }
        ensures width { self ≤ most_width }
    {
        if self.bits < 128 {
            (1 << self.bits) - 1
        } else {
            u128::MAX
        }
    }

    /// A value modulo 2 to the width.
    #[tactic(auto, using(std::proofs::lemmas::Nat::and_mask))]
    pub fn reduced(self, value: u128) -> u128
        ensures value { result ≡ value % 2 ^ self }
        ensures width { self ≤ most_width }
    {
        value & self.mask()
    }
}

/// The width of a type word; of any other 1.
pub fn width_or_one(ty: &Token) -> Width
    ensures { result ≡ width_or_one ty.now }
{
    Width::new(width_of_type(bytes_of(ty)).unwrap_or(1))
}
