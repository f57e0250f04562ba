// What can be wrong with a text.
ghost use Rattle.std.specs.Prelude.{◌≡◌};
ghost use Rattle.mage_lex.specs.declared.fault.LangFault.TheVariants as faults;

use mage_base::Memory;
use std::alloc::{AllocError, AllocFailed};
use thiserror::Error;

/// What is wrong with a text.
#[derive(Clone, Copy, Debug, PartialEq, Eq, Error)]
pub enum LangKind {
    /// A byte that begins no token.
    #[error("a byte that begins no token")]
    BadByte,
    /// A number above 2^127 - 1, or one that a letter or `_` follows directly.
    #[error("a number that is too large or runs into a word")]
    BadNumber,
    /// More than 1,048,576 bytes of text, or more steps than a program may have.
    #[error("too long")]
    TooLong,
    /// A token with which no source goes on.
    #[error("a token that can't stand here")]
    Syntax,
    /// More than 100 brackets and signs open at once.
    #[error("nested too deep")]
    TooDeep,
    /// A name that stands for nothing here.
    #[error("an unknown name")]
    UnknownName,
    /// A name that is taken.
    #[error("a name that is taken")]
    Duplicate,
    /// Two widths that have to be the same and aren't.
    #[error("widths that differ")]
    WidthDiffers,
    /// Values of two workers where one worker computes.
    #[error("workers that differ")]
    WorkerDiffers,
    /// An index past the end of an array.
    #[error("an index out of range")]
    IndexOut,
    /// A constant that has no value, or none in range.
    #[error("a constant without a value in range")]
    ConstFault,
    /// A width that no type has.
    #[error("a width that no type has")]
    BadWidth,
    /// A number of workers, or of a worker, out of range.
    #[error("a worker out of range")]
    BadWorker,
}

/// Why a text is refused, or that there was no memory to read it.
#[derive(Clone, Copy, Debug, PartialEq, Eq, Error)]
pub enum LangFault {
    /// What is wrong, and where. Lines and columns count from 1, and a column counts bytes; 0 and 0
    /// stand for the whole text.
    #[error("{kind} at {line}:{column}")]
    At {
        kind: LangKind,
        line: u32,
        column: u32,
    },
    /// There was no memory.
    #[error("no memory")]
    Memory,
}

impl From<AllocError> for LangFault {
    ghost from_gives = { λ _ fault. fault ≡ faults.Memory };

    fn from(_: AllocError) -> Self {
        LangFault::Memory
    }
}

impl<T: Drop> From<AllocFailed<T>> for LangFault {
    ghost from_gives = { λ _ fault. fault ≡ faults.Memory };

    fn from(_: AllocFailed<T>) -> Self {
        LangFault::Memory
    }
}

impl From<Memory> for LangFault {
    ghost from_gives = { λ _ fault. fault ≡ faults.Memory };

    fn from(_: Memory) -> Self {
        LangFault::Memory
    }
}
