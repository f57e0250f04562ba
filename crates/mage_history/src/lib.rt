//! What has passed, kept where only clauses read it: transfers of pages, and wires.
#![tactic(auto)]

mod page_history;
mod wire_history;

pub use page_history::PageHistory;
pub use wire_history::WireHistory;
