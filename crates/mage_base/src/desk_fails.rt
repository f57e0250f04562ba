// Which calls of a desk in memory, and of what it hands out, are to fail.
ghost use Rattle.std.specs.Prelude.{◌≡◌, []};

use sqlite_items::Items;
use std::alloc::Global;

/// The calls of a desk in memory, and of what it hands out, that are to fail. Each list holds numbers of calls, counted
/// from 0 over the calls of the object named. Of two entries for one object the first counts.
#[derive(Debug, Drop)]
pub struct DeskFails {
    /// Calls of the desk itself: `fetch`, `open_in`, `open_out`, `close_out`, `store`, `say` and `warn` together.
    pub desk: Items<u64>,
    /// Calls of the store of this worker and this shard.
    pub stores: Items<(u16, u16, Items<u64>)>,
    /// Calls of the source with this name.
    pub inputs: Items<(String, Items<u64>)>,
    /// Calls of the sink with this name.
    pub outputs: Items<(String, Items<u64>)>,
}

impl DeskFails {
    /// Lists no call at all.
    pub fn none(alloc: Global) -> DeskFails
        ensures { result ≡ record { desk = []; stores = []; inputs = []; outputs = [] } }
    {
        DeskFails {
            desk: Items::new(alloc),
            stores: Items::new(alloc),
            inputs: Items::new(alloc),
            outputs: Items::new(alloc),
        }
    }
}
