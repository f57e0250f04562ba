// What can stop a run.
use mage_base::Damage;
use mage_instr::DriverFault;

/// Why a run stopped before all of its workers had ended.
#[derive(Clone, Copy, Debug, PartialEq, Eq)]
pub enum RunFault {
    /// The store of this worker failed.
    Store { worker: u16 },
    /// The driver of this worker stopped.
    Driver { worker: u16, fault: DriverFault },
    /// A page of this worker came back with another digest than it was written with.
    Damaged { worker: u16, damage: Damage },
    /// There was no memory for the machines.
    Memory,
}
