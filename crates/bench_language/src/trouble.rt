// Why a run ends early.
use mage_base::Memory;
use mage_lex::LangFault;
use std::alloc::{AllocError, AllocFailed};

/// Why a run ends early.
#[derive(Clone, Copy)]
pub enum Trouble {
    /// The words aren't FILE and then tasks.
    Words,
    /// What is wrong with the source.
    Source(LangFault),
    /// The file can't be read, a line can't be said, or there is no memory.
    Outside,
}

impl From<LangFault> for Trouble {
    fn from(fault: LangFault) -> Self {
        match fault {
            LangFault::At { .. } => Trouble::Source(fault),
            LangFault::Memory => Trouble::Outside,
        }
    }
}

impl From<Memory> for Trouble {
    fn from(_: Memory) -> Self {
        Trouble::Outside
    }
}

impl From<AllocError> for Trouble {
    fn from(_: AllocError) -> Self {
        Trouble::Outside
    }
}

impl<T: Drop> From<AllocFailed<T>> for Trouble {
    fn from(_: AllocFailed<T>) -> Self {
        Trouble::Outside
    }
}
