// How a driver stands.
use mage_instr::DriverFault;

/// Whether a driver runs, has finished, or has failed. Only one that runs may be called.
#[derive(Clone, Copy, Debug, PartialEq, Eq)]
pub enum Standing {
    Running,
    Finished,
    Failed(DriverFault),
}
