//! What holds of the core over a memory program that the verifier has accepted. Nothing here runs.
#![tactic(auto)]

mod laws;

pub use laws::{
    joint_runs_of_verified_programs_end, verified_programs_are_orderly,
    verified_programs_run_as_together,
};
