//! Tests of unrolling and of the direct meaning, on texts: programs, faults and their places,
//! limits, and outputs.
#![tactic(auto)]

#[cfg(test)]
mod faults;
#[cfg(test)]
mod limits;
#[cfg(test)]
mod programs;
#[cfg(test)]
mod texts;
#[cfg(test)]
mod values;
