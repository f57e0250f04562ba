// The exit codes.
ghost use Rattle.std.specs.Prelude.{◌≡◌};
ghost use Rattle.mage_planner.specs.Codes.{code_of};
ghost use Rattle.mage_planner.specs.Lines.{status_of};

use crate::{Refusal, Status};

impl Status {
    /// The exit code.
    pub fn code(self) -> u8
        ensures { result ≡ code_of self }
    {
        self as u8
    }
}

impl Refusal {
    /// The status that it is answered with.
    pub fn status(self) -> Status
        ensures { result ≡ status_of self }
    {
        match self {
            Refusal::Words => Status::Words,
            Refusal::Language { .. } => Status::Language,
            Refusal::Limits { .. } => Status::Limits,
            Refusal::InputLine { .. }
            | Refusal::InputTooLong { .. }
            | Refusal::InputSeed
            | Refusal::InputLabels { .. } => Status::InputText,
            Refusal::MemoryProgram { .. } => Status::MemoryProgram,
            Refusal::CheckNo { .. } => Status::CheckNo,
            Refusal::Store { .. } => Status::Store,
            Refusal::Damaged { .. } => Status::Damaged,
            Refusal::Stream { .. } => Status::Stream,
            Refusal::Desk => Status::Desk,
            Refusal::Memory => Status::Memory,
        }
    }
}
