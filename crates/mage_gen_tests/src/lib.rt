//! Tests of generated sources: their texts, their numbers, and what they mean.
#![tactic(auto)]

#[cfg(test)]
mod meanings;
#[cfg(test)]
mod orders;
#[cfg(test)]
mod texts;
