//! The passes of the planner in a row: from a text to the program that it unrolls to, what a plan for it costs, and its memory
//! program.
#![tactic(auto)]

mod costed;
mod counts;
mod fault;
mod laws;
mod loaded;
mod loading;
mod making;
mod part;
mod planning;
mod stats;
mod worker;

pub use costed::Planned;
pub use fault::PlanFault;
pub use laws::{plans_fail_as_costs, reads_are_least};
pub use loaded::Loaded;
pub use loading::load;
pub use making::{memory_program, plan, planned};
pub use planning::{program_stats, summary};
pub use stats::WorkerStats;

#[cfg(test)]
mod tests;
