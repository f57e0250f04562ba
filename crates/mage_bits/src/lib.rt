//! Bits and numbers: the binary digits of a number, lowest first, and the number that digits write; and the
//! definitions of arithmetic modulo a power of two.
#![tactic(auto)]

mod digits;
mod laws;
#[cfg(test)]
mod tests;

pub use digits::{bits_of, number_of};
pub use laws::{laws_of_bits, laws_of_modular_arithmetic};
