//! Constants of the language: whole numbers from -2^127 to 2^127 - 1, and what is said with them:
//! numbers in a range, and conditions. Unrolling and the direct meaning of a source both stand on
//! this.
#![tactic(auto)]

mod constants;
mod faults;
mod known;
mod operators;
mod ranges;
mod tokens;

pub use constants::constant_of;
pub use faults::fault_at;
pub use known::KnownConstants;
pub use ranges::{holds, number_below, size_in};
pub use tokens::{number_of, row_of};
