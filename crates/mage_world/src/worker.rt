// A worker of a world, without its driver.
use crate::slot::Slot;
use mage_instr::DriverFault;

/// Where a worker stands, its frames, its slots and its pages.
#[derive(Drop)]
pub(crate) struct Worker {
    // How many directives are done, and how many wires of the one that comes next.
    pub(crate) place: u32,
    pub(crate) wire: u8,
    pub(crate) finished: bool,
    pub(crate) fault: Option<DriverFault>,
    pub(crate) frames: Vec<Vec<u8>>,
    pub(crate) slots: Vec<Slot>,
    pub(crate) pages: Vec<Vec<u8>>,
}
