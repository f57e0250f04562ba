//! Ports over stores.
#![tactic(auto)]

mod sealed_port;
mod seals;
mod serial_port;
mod slot;
mod slots;
mod watch;

pub use sealed_port::SealedPort;
pub use serial_port::SerialPort;
