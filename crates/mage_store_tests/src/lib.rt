//! A caller that is generic in its port, and tests of the ports over stores with it.
#![tactic(auto)]

mod caller;
#[cfg(test)]
mod full_store;
#[cfg(test)]
mod logs;
mod ports;
#[cfg(test)]
mod sealed;
#[cfg(test)]
mod serial;

pub use caller::{Went, written_and_read};
pub use ports::{sealed_over, serial_over, went_through};
