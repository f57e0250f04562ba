//! The outside as the project sees it: sources, sinks, stores of pages and the desk that hands them out, as traits
//! with counts of faults, and all of them in memory for tests. A fault is answered only where the outside failed.
#![tactic(auto)]

mod bounded_bytes;
mod calls;
mod desk;
mod desk_fails;
mod failure;
mod ledger;
mod mem_desk;
mod mem_sink;
mod mem_source;
mod mem_store;
mod memory_pages;
mod sink;
mod source;
mod store;

pub use desk::Desk;
pub use desk_fails::DeskFails;
pub use failure::{Damage, DeskError, Failed, Memory};
pub use ledger::{Ledger, LentStore, StoreCounts};
pub use mem_desk::MemDesk;
pub use mem_sink::MemSink;
pub use mem_source::MemSource;
pub use mem_store::MemStore;
pub use memory_pages::{overwrite, zero_pages};
pub use sink::Sink;
pub use source::Source;
pub use sqlite_items::Items;
pub use store::Store;
