use mage_instr::Tight;
use thiserror::Error;

/// Why there are no directives.
#[derive(Clone, Copy, Debug, PartialEq, Eq, Error)]
pub enum ScheduleError {
    /// A page has to be read or written, and the buffer has no slot.
    #[error("a limit is too low")]
    Tight(Tight),
    /// There was no memory for the directives.
    #[error("no memory")]
    Memory,
}
