//! Tests of what a command does around a run, over a desk in memory. Each expected value follows from what is lent and put, and from
//! the calls that are listed to fail.
#![tactic(auto)]

#[cfg(test)]
mod desks;
#[cfg(test)]
mod files;
#[cfg(test)]
mod stores;
