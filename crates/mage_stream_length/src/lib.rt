//! How long the streams of a program's garblers are.
#![tactic(auto)]

mod laws;
mod length;

pub use laws::streams_are_no_longer;
pub use length::stream_length;
