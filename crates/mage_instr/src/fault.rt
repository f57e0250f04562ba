// What can stop a worker that runs.
use mage_base::Damage;

/// Why a driver stopped.
#[derive(Clone, Copy, Debug, PartialEq, Eq)]
pub enum DriverFault {
    /// The sink of its stream failed.
    Sink,
    /// The source of its stream failed.
    Source,
    /// The stream ends here, before a piece that is due is whole.
    Short { at: u64 },
    /// The stream goes on here, behind the last piece that is due.
    Long { at: u64 },
    /// The byte here isn't a colour.
    Colour { at: u64 },
}

/// Why a machine stopped.
#[derive(Clone, Copy, Debug, PartialEq, Eq)]
pub enum MachineFault {
    /// A store failed.
    Store,
    /// Its driver stopped.
    Driver(DriverFault),
    /// A page came back with another digest than it was written with.
    Damaged(Damage),
}
