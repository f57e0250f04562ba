//! Where each page read and page write of a plan is issued and finished, and in which slot of the buffer,
//! and which page of the store each page is kept in.
#![tactic(auto)]

mod fault;
mod homes;
mod laws;
mod moves;
mod past;
mod read;
mod reads;
mod scheduling;
mod slot;
mod slots;
mod tight;
mod transfers;

pub use fault::ScheduleError;
pub use homes::homed;
pub use laws::{homes_keep_turns, lists_are_scheduled, order_is_kept, schedules_are_plain};
pub use scheduling::{schedule, schedule_by_page};
pub use tight::buffer_tight;
