//! The driver that garbles: half gates on labels, and what the evaluator needs of them said to a sink.
#![tactic(auto)]

mod driver;
mod gates;
mod inputs;
mod laws;
mod outgoing;

pub use driver::GarbleDriver;
pub use laws::{law_of_room, law_of_streams};
