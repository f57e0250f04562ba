//! The core as a value that takes events one by one.
#![tactic(auto)]

mod course;
mod event;
mod instructions;
mod kinds;
mod laws;
mod ready;
mod room;
mod services;
mod slot;
mod transfers;
mod turns;
mod worker;
mod world;

pub use event::{ApplyError, Event};
pub use laws::events_are_of_the_core;
pub use world::World;
