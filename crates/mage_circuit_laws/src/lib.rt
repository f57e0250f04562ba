//! What circuits compute: on plain wires the bits of what the instruction computes on numbers.
#![tactic(auto)]

mod execution;
mod laws;

pub use execution::exec_in_plain;
pub use laws::circuits_are_right;
