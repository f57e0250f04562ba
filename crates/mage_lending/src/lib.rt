//! What a command does around a run: it borrows the workers' stores of a desk and gives them back, and opens and closes the
//! workers' files.
#![tactic(auto)]

mod names;
mod sinks;
mod sources;
mod stores;

pub use names::worker_file;
pub use sinks::{WorkerSinks, close_sinks, open_sinks};
pub use sources::{WorkerSources, close_sources, open_sources};
pub use stores::{StoreOrder, give_stores_back, lend_stores};
