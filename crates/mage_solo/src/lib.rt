//! A verified memory program run on one thread with each kind of driver, in the terms of the program that it carries.
#![tactic(auto)]

mod evaluating;
mod garbling;
mod laws;
mod outputs;
mod plain;

pub use evaluating::{Evaluated, run_evaluating};
pub use garbling::{Garbled, run_garbling};
pub use laws::joint_runs_of_verified_programs_agree;
pub use plain::{Ran, run_plain};
