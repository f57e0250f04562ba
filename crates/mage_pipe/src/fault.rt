// Why there is no plan.
use mage_instr::Tight;
use mage_lex::LangFault;
use thiserror::Error;

/// Why there is no plan.
#[derive(Clone, Copy, Debug, PartialEq, Eq, Error)]
pub enum PlanFault {
    /// The text isn't in the language. The fault is never its `Memory`.
    #[error("{0}")]
    Lang(LangFault),
    /// A limit is too low for the instructions of a worker, from 0.
    #[error("a limit is too low for worker {worker}")]
    Tight { worker: u16, tight: Tight },
    /// There was no memory.
    #[error("no memory")]
    Memory,
}
