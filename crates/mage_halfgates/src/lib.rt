//! Half gates on labels, as definitions with their laws. Nothing here runs.
#![tactic(auto)]

mod gates;

pub use gates::laws_of_half_gates;
