//! That placement and replacement carry the program: the plan of residency that they give, walked through plainly, does just
//! the program's instructions, and each finds its arguments. Definitions and laws alone: nothing here runs.
#![tactic(auto)]

mod laws;

pub use laws::{
    cut_transfers_carry, names_of_pages_dont_matter, placed_and_replaced_carries,
    transfers_at_once_carry,
};
