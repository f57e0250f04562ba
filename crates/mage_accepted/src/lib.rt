//! That the verifier accepts what carries a linked program: laws; nothing here runs.
#![tactic(auto)]

mod laws;

pub use laws::{
    carrying_parts_have_no_fault, carrying_plans_have_no_fault, passed_plans_are_accepted,
    passed_plans_are_short,
};
