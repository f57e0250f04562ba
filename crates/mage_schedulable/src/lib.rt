//! That the list of the replacement rule is one that can be scheduled, and that what all passes make of a program carries it:
//! laws; nothing here runs.
#![tactic(auto)]

mod laws;

pub use laws::{
    passes_plan, plans_carry, programs_carry, rule_lists_are_replaced, rule_lists_bring_once,
    rule_lists_find_places, schedules_carry,
};
