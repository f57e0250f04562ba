//! When each page of a step is used next.
#![tactic(auto)]

mod laws;
mod next;

pub use laws::next_uses_are_determined;
pub use next::next_uses;
