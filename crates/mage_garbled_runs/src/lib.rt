//! What a carried program comes to, garbled and evaluated. Nothing here runs.
#![tactic(auto)]

mod laws;

pub use laws::{carried_programs_garble_and_decode, decoding_gives_what_is_meant};
