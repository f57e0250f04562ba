//! What the workers of a memory program do, over the rules of any driver: definitions, and the laws of
//! the core. Nothing here runs.
#![tactic(auto)]

mod laws;

pub use laws::{
    answered_runs_begin_the_answered_joint_run, every_event_list_begins_the_joint_run,
    lowest_first_is_a_joint_run, no_core_is_stuck, own_runs_begin_the_joint_run,
};
