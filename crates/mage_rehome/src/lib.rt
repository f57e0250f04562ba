//! A memory program whose transfers name pages of the program, made into one whose transfers name store pages that are used
//! again; and that this changes nothing of what it carries.
#![tactic(auto)]

mod laws;
mod rehoming;

pub use laws::{
    earlier_plans_are_accepted, earlier_plans_come_to_todays, renaming_keeps_carried,
    renaming_makes_no_fault,
};
pub use rehoming::rehome;
