//! Networks of deterministic workers with links that are first in, first out, and their laws.
//! Definitions and laws alone: nothing here runs.
#![tactic(auto)]

mod answers;
mod laws;
mod reading;
mod slots;
mod waiting;

pub use answers::{answered_runs_begin_the_joint_run, answers_go_along};
pub use laws::{
    adder_says_the_sum, each_is_on_its_own_run, none_is_stuck, own_runs_are_runs,
    runs_begin_the_joint_run, steps_go_along,
};
pub use reading::reads_are_answers;
pub use slots::slots_keep_the_meaning;
pub use waiting::what_is_meant_happens;
