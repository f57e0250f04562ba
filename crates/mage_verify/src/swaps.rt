// The tables of the check.
use crate::Slot;
use std::collections::HashSet;

// What a worker's slots do, and where its pages are.
#[derive(Drop)]
pub(crate) struct Swaps {
    // One for each slot of the buffer.
    pub slots: Vec<Slot>,
    // The pages that slots in flight name.
    pub in_flight: HashSet<u32>,
    // The pages whose write was finished.
    pub stored: HashSet<u32>,
}
