//! The driver that evaluates: the active label of each wire, from labels that are dealt and a stream that a garbler made.
#![tactic(auto)]

mod driver;
mod filling;
mod gates;
mod incoming;
mod inputs;
mod laws;
mod outputs;

pub use driver::EvalDriver;
pub use laws::law_of_outputs;
