use thiserror::Error;

/// Why bytes are no memory program: the first fault in the order of the bytes. Offsets count bytes from 0.
#[derive(Clone, Copy, Debug, PartialEq, Eq, Error)]
pub enum FileFault {
    /// There are more than 1,073,741,824 bytes, or of a file of the first version more than 1,073,741,760.
    #[error("too long")]
    Long,
    /// The first field isn't `MAGEMP`.
    #[error("bad magic")]
    Magic,
    /// The second field isn't `02`, or of a file of the first version not `01`.
    #[error("bad version")]
    Version,
    /// The input ends at this offset, within a field or before it.
    #[error("short at {at}")]
    Short { at: u64 },
    /// The field at this offset breaks its rule.
    #[error("bad field at {at}")]
    Field { at: u64 },
    /// Bytes follow the last directive, from this offset on.
    #[error("extra at {at}")]
    Extra { at: u64 },
    /// There was no memory for the program.
    #[error("no memory")]
    Memory,
}
