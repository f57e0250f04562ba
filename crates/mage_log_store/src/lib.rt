//! A store in memory that keeps a log and answers some reads falsely, and a desk that hands such
//! stores out: for tests of what finds out false pages.
#![tactic(auto)]

mod lie;
mod log_desk;
mod log_store;

pub use lie::Lie;
pub use log_desk::LogDesk;
pub use log_store::LogStore;
