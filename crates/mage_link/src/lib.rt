//! Links between workers, which carry wires in order.
#![tactic(auto)]

mod laws;
mod link;
mod link_port;
mod queue_link;
#[cfg(test)]
mod tests;
mod wire;

pub use laws::wires_are_kept;
pub use link_port::LinkPort;
pub use queue_link::QueueLink;
pub use wire::{Full, Wire16};
