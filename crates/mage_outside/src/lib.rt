//! The outside as it is: a desk over files, standard output and standard error, with buffered sources and sinks and stores
//! in files. This is the trusted edge: what is proved of it is how it counts its faults, and what a file holds is told
//! nowhere, since no contract can say it.
#![tactic(auto)]

mod file_sink;
mod file_source;
mod file_store;
#[cfg(test)]
mod made_up;
mod reading;
mod real_desk;
#[cfg(test)]
mod tests;
mod words;

pub use file_sink::FileSink;
pub use file_source::FileSource;
pub use file_store::FileStore;
pub use real_desk::RealDesk;
pub use words::{NoWords, command_words};
