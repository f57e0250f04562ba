//! Tests of the frames of a machine: instructions over them in plain, with bytes worked out by hand, and after a fault.
#![tactic(auto)]

mod doing;
mod fits;

pub use doing::{done, sent, stopped};

#[cfg(test)]
mod faults;
#[cfg(test)]
mod holding;
#[cfg(test)]
mod links;
#[cfg(test)]
mod plain;
