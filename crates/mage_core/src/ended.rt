// What a run leaves.
use crate::RunFault;

/// What a run hands back: the drivers and the stores of its workers, in order, and what stopped it, if anything did.
#[derive(Drop)]
pub struct Ended<D, S> {
    pub drivers: Vec<D>,
    pub stores: Vec<Vec<S>>,
    pub fault: Option<RunFault>,
}
