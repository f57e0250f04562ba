// Why words ask for nothing.
use thiserror::Error;

/// Why words ask for nothing.
#[derive(Clone, Copy, Debug, PartialEq, Eq, Error)]
pub enum WordsFault {
    /// The words aren't those of a command.
    #[error("bad words")]
    Words,
    /// There was no memory to read them.
    #[error("no memory")]
    Memory,
}
