// What can go wrong outside.
ghost use Rattle.std.specs.Prelude.{◌≡◌};

use std::alloc::{AllocError, AllocFailed};
use thiserror::Error;

/// Want of memory, where nothing else can go wrong.
#[derive(Clone, Copy, Debug, PartialEq, Eq, Error)]
#[error("no memory")]
pub struct Memory;

impl From<AllocError> for Memory {
    fn from(_: AllocError) -> Self {
        Memory
    }
}

impl<T: Drop> From<AllocFailed<T>> for Memory {
    fn from(_: AllocFailed<T>) -> Self {
        Memory
    }
}

/// The outside failed, where it has nothing else to answer.
#[derive(Clone, Copy, Debug, PartialEq, Eq, Error)]
#[error("the outside failed")]
pub struct Failed;

/// Why a desk hands out no file.
#[derive(Clone, Copy, Debug, PartialEq, Eq, Error)]
pub enum DeskError {
    /// The desk failed: the file isn't there, or can't be read.
    #[error("the desk failed")]
    Fault,
    /// The file is longer than the limit.
    #[error("the file is too long")]
    TooLong,
    /// There was no memory for the file.
    #[error("no memory")]
    Memory,
}

/// A page that came back other than it was written: the SHA-256 digests of what was written and of what came back.
#[derive(Clone, Copy, Debug, PartialEq, Eq)]
pub struct Damage {
    pub page: u32,
    pub kept: [u8; 32],
    pub found: [u8; 32],
}
