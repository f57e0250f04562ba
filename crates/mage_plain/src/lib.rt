//! The driver that computes in plain.
#![tactic(auto)]

mod plain;

pub use plain::PlainDriver;
