//! The words of the commands: which lists of words a command takes, and what they ask for.
#![tactic(auto)]

mod asked;
mod command;
mod driver;
#[cfg(test)]
mod driver_tests;
mod driving;
mod fault;
mod matches;
mod number;
mod option;
mod pairs;
mod request;
mod table;
#[cfg(test)]
mod tests;
mod values;
mod words;

pub use fault::WordsFault;
pub use request::{Check, Deal, Driver, Gen, Plan, Request, Solo, Stats, Upgrade};
pub use words::read_words;
