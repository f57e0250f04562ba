//! Worlds in plain: rows of events, with answers worked out by hand from the rules of the core.
#![tactic(auto)]

#[cfg(test)]
mod events;
mod programs;
mod worlds;
