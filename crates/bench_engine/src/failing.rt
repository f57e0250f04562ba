// Why nothing is printed.
use mage_base::Memory;
use std::alloc::AllocError;

/// Why nothing is printed.
#[derive(Clone, Copy)]
pub enum Trouble {
    Words,
    Memory,
    Program,
    Machine,
    Print,
}

impl From<AllocError> for Trouble {
    fn from(_: AllocError) -> Self {
        Trouble::Memory
    }
}

impl From<Memory> for Trouble {
    fn from(_: Memory) -> Self {
        Trouble::Memory
    }
}
