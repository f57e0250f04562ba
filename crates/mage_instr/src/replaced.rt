// What a plan of residency is made of.
use crate::Op;

/// Where a value stands in memory: its frame, and its first wire in the frame.
#[derive(Clone, Copy, Debug, PartialEq, Eq)]
pub struct Spot {
    pub frame: u16,
    pub offset: u16,
}

/// An instruction whose result and arguments have their spots. A spot that the opcode doesn't have is 0, 0.
#[derive(Clone, Copy, Debug, PartialEq, Eq)]
pub struct Job {
    pub op: Op,
    pub width: u8,
    pub imm: u64,
    pub out: Spot,
    pub args: [Spot; 3],
}

/// One entry of a plan of residency.
#[derive(Clone, Copy, Debug, PartialEq, Eq)]
pub enum Replaced {
    /// The frame takes a page that no step had before.
    Fresh { frame: u16, page: u32 },
    /// The frame takes a page that was saved.
    Load { frame: u16, page: u32 },
    /// The page in the frame is kept outside.
    Save { frame: u16, page: u32 },
    /// An instruction is done.
    Do(Job),
}

/// What a plan may use.
#[derive(Clone, Copy, Debug, PartialEq, Eq)]
pub struct Limits {
    /// Wires of a page, a power of two from 64 to 65,536.
    pub page: u32,
    /// Frames in memory.
    pub frames: u32,
    /// Slots of the prefetch buffer.
    pub buffer: u16,
    /// How many instructions ahead of its need a page may be read.
    pub ahead: u32,
}

/// Which limit is too low, and for which instruction.
#[derive(Clone, Copy, Debug, PartialEq, Eq)]
pub enum Tight {
    /// The instruction needs more pages than there are frames.
    Frames { instr: u32, needs: u8, has: u32 },
    /// The instruction needs a slot of the buffer, and there is none.
    Buffer { instr: u32 },
    /// The instruction's result has a size class of more wires than a page.
    Page { instr: u32, class: u8 },
}
