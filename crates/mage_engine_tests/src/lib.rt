//! Tests of machines: small memory programs through a machine, over ports and links of several kinds.
#![tactic(auto)]

mod plain;
mod ports;
mod programs;
mod runs;
mod slow_port;
#[cfg(test)]
mod tests;
mod words;

pub use plain::{Handed, PlainMachine, Went, answers_of, hands_over, over_port, plainly};
pub use ports::{linked, sealed_for, serial_for, slow_for};
pub use programs::{leaves_at, pair_of, part_of};
pub use runs::{Answer, in_turn, made, stepped};
pub use slow_port::SlowPort;
pub use words::words_of;
