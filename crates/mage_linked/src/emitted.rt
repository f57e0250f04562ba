// An instruction in the order of emission.
use mage_instr::Instr;

/// An instruction, and the worker that does it.
#[derive(Clone, Copy, Debug, PartialEq, Eq)]
pub struct Emitted {
    pub worker: u8,
    pub instr: Instr,
}
