//! The frames of a machine, as bytes, and what an instruction makes of them over any driver.
#![tactic(auto)]

mod bank;
mod jobs;
mod links;
mod values;
mod wires;

pub use bank::{clear, frames};
pub use jobs::compute;
pub use links::{receive, send};
pub use values::{load, store};
