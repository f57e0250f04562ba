// The refusals of `replace` and `cost`.
use mage_instr::Tight;
use thiserror::Error;

/// Why there is no list.
#[derive(Clone, Copy, Debug, PartialEq, Eq, Error)]
pub enum ReplaceError {
    /// A step has more pages than there are frames.
    #[error("a limit is too low")]
    Tight(Tight),
    /// There was no memory for the list.
    #[error("no memory")]
    Memory,
}

/// Why a plan of residency isn't one for a trace.
#[derive(Clone, Copy, Debug, PartialEq, Eq, Error)]
pub enum CostFault {
    /// The plan hasn't as many sets as the trace has steps.
    #[error("the plan has not one set for each step")]
    Length,
    /// The set doesn't ascend strictly.
    #[error("the set of step {step} does not ascend")]
    Order { step: u32 },
    /// The set lacks a page of the step.
    #[error("the set of step {step} lacks a page of the step")]
    Misses { step: u32 },
    /// The set has more pages than there are frames.
    #[error("the set of step {step} has more pages than frames")]
    Over { step: u32 },
    /// There was no memory to count the reads.
    #[error("no memory")]
    Memory,
}
