// One link on one thread.
use crate::Wire16;
use circular_buffer::HeapCircularBuffer;
use mage_history::WireHistory;

/// The wires that lie in a link, in a queue of fixed room, and those that were received from it.
#[derive(Drop)]
pub(crate) struct Link {
    pub(crate) queue: HeapCircularBuffer<Wire16>,
    pub(crate) received: WireHistory,
}
