//! Tests of the tree, its reader and its printer. Each expected value follows from the grammar in
//! docs/LANGUAGE.md.
#![tactic(auto)]

#[cfg(test)]
mod printing;
#[cfg(test)]
mod reading;
#[cfg(test)]
mod texts;
#[cfg(test)]
mod words;
