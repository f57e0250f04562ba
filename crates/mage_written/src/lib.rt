//! That what the planner makes is written to a file, and read back from it: laws; nothing here runs.
#![tactic(auto)]

mod laws;

pub use laws::{
    accepted_are_values, earlier_files_come_to_plans, loaded_have_arguments, plans_are_plans,
    renamed_are_read,
};
