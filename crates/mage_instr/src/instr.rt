// Programs of instructions.
use crate::Op;
use sqlite_items::Items;

/// Stands for a step that never comes. Lists that are indexed by a `u32` have at most this many items.
pub const NEVER: u32 = u32::MAX;

/// One instruction of a worker.
#[derive(Clone, Copy, Debug, PartialEq, Eq)]
pub struct Instr {
    pub op: Op,
    /// The width in bits, 1 to 128.
    pub width: u8,
    /// The arguments, each as the index of the instruction of the same worker that defined it. Those past the
    /// arity are 0.
    pub args: [u32; 3],
    /// What the opcode asks for beside its arguments: a party, a value, an amount, a width, a worker, or 0.
    pub imm: u64,
}

/// A program without branches: the instructions of each worker, and the order in which they were emitted.
#[derive(Debug, Drop)]
pub struct Program {
    pub workers: Items<Items<Instr>>,
    /// The worker of each instruction, in the order of emission.
    pub order: Items<u8>,
}

/// Where a value stands: its page, and its first wire in the page.
#[derive(Clone, Copy, Debug, PartialEq, Eq)]
pub struct Place {
    pub page: u32,
    pub offset: u16,
}

/// The pages that an instruction needs, ascending: the first `count` of `pages`. The others are 0.
#[derive(Clone, Copy, Debug, PartialEq, Eq)]
pub struct Step {
    pub pages: [u32; 4],
    pub count: u8,
}
