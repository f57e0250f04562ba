//! That the texts of generated sources are sources, laid out as they are printed. It has no code that runs.
#![tactic(auto)]

mod laws;

pub use laws::generated_texts_are_sources;
