//! A place in a page for the result of each instruction, and the pages that each instruction needs.
#![tactic(auto)]

mod classes;
mod last;
mod laws;
mod page;
mod placing;
mod pool;
mod steps;
mod too_wide;
mod touched;

pub use classes::class_of;
pub use laws::{places_are_computed, places_are_determined, steps_are_computed};
pub use placing::place;
pub use too_wide::page_tight;
