use std::collections::HashMap;

/// What is known of the entries so far.
#[derive(Debug, Drop)]
pub struct Past {
    /// The instruction in whose gap the next entry stands.
    pub gap: u32,
    /// The page that each frame has.
    pub memory: HashMap<u16, u32>,
    /// The gap in which each page last lost its frame.
    pub lost: HashMap<u32, u32>,
}
