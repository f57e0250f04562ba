//! Tests that cross crates: what the top calls answer, say and warn over a desk in memory. Each expected value is a worked
//! example or follows from the rules in docs/, and none comes from the program.
#![tactic(auto)]

#[cfg(test)]
mod cases;
#[cfg(test)]
mod deal;
#[cfg(test)]
mod desk;
#[cfg(test)]
mod eval;
#[cfg(test)]
mod garble;
#[cfg(test)]
mod generated;
#[cfg(test)]
mod programs;
#[cfg(test)]
mod solo;
#[cfg(test)]
mod stores;
#[cfg(test)]
mod upgrades;
