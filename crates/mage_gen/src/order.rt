// What is asked of the generator, and what it gives.

/// What a generated source is to have.
#[derive(Clone, Copy, Debug, PartialEq, Eq)]
pub struct GenOrder {
    /// The items of each worker's lists, 1 to 65,536.
    pub items: u32,
    /// The evaluator's lists of each worker, 1 to 1,024.
    pub rows: u32,
    /// The workers, 1 to 16.
    pub workers: u16,
    /// The number from which the inputs are made.
    pub number: u32,
}

/// A source and its inputs, as texts.
#[derive(Debug, Drop)]
pub struct Generated {
    /// The text of the source.
    pub text: Vec<u8>,
    /// The garbler's input text.
    pub garbler: Vec<u8>,
    /// The evaluator's input text.
    pub evaluator: Vec<u8>,
}
