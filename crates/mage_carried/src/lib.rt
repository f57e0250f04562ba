//! What a memory program gives that carries a program: the law that ties directives, frames and slots to
//! the unplaced program. Nothing here runs.
#![tactic(auto)]

mod laws;

pub use laws::carried_programs_run_as_unplaced;
