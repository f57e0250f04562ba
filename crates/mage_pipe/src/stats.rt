// What a plan costs.

/// What the plan for a worker's instructions costs.
#[derive(Clone, Copy, Debug, PartialEq, Eq)]
pub struct WorkerStats {
    /// How many instructions the worker has.
    pub instructions: u32,
    /// How many pages of wires the results stand on.
    pub pages: u32,
    /// The most pages that one instruction needs, 0 to 4.
    pub needs: u8,
    /// How many times a page is read back from the store: no plan of residency for these pages reads fewer.
    pub reads: u64,
    /// How many times a page is written to the store.
    pub writes: u64,
}
