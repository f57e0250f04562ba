//! What garblers say and evaluators read, as definitions over whole programs, and the law of decoding. Nothing here runs.
#![tactic(auto)]

mod decoding;

pub use decoding::law_of_decoding;
