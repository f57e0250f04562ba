//! The file of a memory program: the one spelling of each, and the reader that accepts just these spellings; and a reader of
//! files of the first version.
#![tactic(auto)]

mod directives;
mod fault;
mod fields;
mod jobs;
mod kind;
mod kinds;
mod laws;
mod left;
mod reading;
mod section;
mod stores;
mod version;
mod writing;

pub use fault::FileFault;
pub use laws::{
    fits_again, read_back, read_exactly, read_first_back, read_first_exactly, spells_so_long,
};
pub use reading::{read, read_first};
pub use writing::write;

#[cfg(test)]
mod first_tests;
#[cfg(test)]
mod tests;
