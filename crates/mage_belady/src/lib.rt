//! Which page leaves a full set of frames, and that no other choice reads less.
#![tactic(auto)]

mod costs;
mod fault;
mod jobs;
mod laws;
mod paging;
mod replacing;
mod steps;
mod use_map;

pub use costs::cost;
pub use fault::{CostFault, ReplaceError};
pub use laws::reads_least;
pub use replacing::{replace, replace_counted};
pub use steps::Steps;
