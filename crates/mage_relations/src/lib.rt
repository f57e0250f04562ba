//! Drivers whose calls keep a relation stay related over every circuit, and over every program of
//! instructions. There is no code here: crates that tie drivers to one another cite the proofs.
#![tactic(auto)]
