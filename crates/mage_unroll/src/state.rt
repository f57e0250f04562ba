// What names stand for while a source is unrolled.
use sqlite_items::Items;

/// A value that an instruction of a worker defines.
#[derive(Clone, Copy, Debug)]
pub struct Variable {
    /// Its width in bits, 1 to 128.
    pub width: u8,
    /// The index of the instruction among those of its worker.
    pub index: u32,
}

/// What the name of a scalar stands for.
#[derive(Clone, Copy, Debug)]
pub struct Scalar {
    /// The worker that has the variable.
    pub worker: u8,
    pub variable: Variable,
}

/// What the name of an array stands for.
#[derive(Debug, Drop)]
pub struct Array {
    /// The worker that has the items.
    pub worker: u8,
    /// The width of each item.
    pub width: u8,
    /// The index of the instruction that defines each item.
    pub items: Items<u32>,
}

/// What a name stands for.
#[derive(Debug, Drop)]
pub enum Named {
    Constant(i128),
    Scalar(Scalar),
    Array(Array),
}

/// What a place stands for.
#[derive(Clone, Copy, Debug)]
pub struct Held {
    /// The worker that has the variable.
    pub worker: u8,
    pub variable: Variable,
    /// Which item of the array it is, where it is one.
    pub position: Option<usize>,
}
