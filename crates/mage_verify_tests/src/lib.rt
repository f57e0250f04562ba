//! Tests of the verifier, and of store pages named anew, on small memory programs.
#![tactic(auto)]

#[cfg(test)]
mod rehoming;
#[cfg(test)]
mod verifying;
