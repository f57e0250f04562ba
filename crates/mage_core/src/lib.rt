//! The serial run: one machine for each worker of a memory program, stepped in turn on one thread.
#![tactic(auto)]

mod closing;
mod ended;
mod fault;
mod laws;
mod making;
mod port;
mod serial;
mod turns;

pub use ended::Ended;
pub use fault::RunFault;
pub use laws::{answered_joint_runs_of_verified_programs_end, parts_finish_what_they_issue};
pub use serial::solo;
