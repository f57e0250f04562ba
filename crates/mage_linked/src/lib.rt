//! The instructions of a program in the order of their emission, and programs whose workers are
//! linked: each value that is sent is received at once. What is known of them stands in the proofs;
//! there is no code here but a type.
#![tactic(auto)]

mod emitted;

pub use emitted::Emitted;
