/// A page read.
#[derive(Clone, Copy, Debug, PartialEq, Eq)]
pub struct Read {
    pub page: u32,
    /// The instruction that the page comes in for.
    pub due: u32,
    /// The instruction that the page left for.
    pub lost: u32,
}

/// A page read, and the instruction in whose gap it is issued.
#[derive(Clone, Copy, Debug, PartialEq, Eq)]
pub struct Timed {
    pub page: u32,
    pub due: u32,
    pub issue: u32,
}
