//! Ports, which machines ask for pages: a transfer is asked for, and finished later.
#![tactic(auto)]

mod ready;
mod swap_port;

pub use ready::{PortWait, Ready};
pub use swap_port::SwapPort;
