//! Tests of circuits: each instruction in plain against the machine's arithmetic, its number of ANDs, and its faults.
#![tactic(auto)]

#[cfg(test)]
mod ands;
#[cfg(test)]
mod computing;
#[cfg(test)]
mod edges;
#[cfg(test)]
mod pairs;
