/// Where a worker stands.
#[derive(Clone, Copy, Debug, PartialEq, Eq)]
pub enum Stand {
    /// Behind its last directive.
    Ended,
    /// At a directive that it does alone.
    Alone,
    /// At a `Send` to this worker.
    Sends(u64),
    /// At a `Recv` from this worker.
    Receives(u64),
}

/// What happens at one turn of the joint run.
#[derive(Clone, Copy, Debug, PartialEq, Eq)]
pub enum Turn {
    /// A worker does a directive alone.
    Alone(u16),
    /// One worker sends what another receives.
    Hands { source: u16, target: u16 },
}

/// A directive of a worker, by its number.
#[derive(Clone, Copy, Debug, PartialEq, Eq)]
pub struct Place {
    pub worker: u16,
    pub directive: u32,
}
