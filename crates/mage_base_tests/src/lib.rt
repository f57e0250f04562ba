//! Tests of the desk in memory and of the sums that desks keep, which call through the traits as the crates above do. Each
//! expected value follows from what is listed to fail and from the rooms.
#![tactic(auto)]

#[cfg(test)]
mod calls;
#[cfg(test)]
mod failing;
#[cfg(test)]
mod rooms;
#[cfg(test)]
mod sums;
