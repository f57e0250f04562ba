// A source that was read.
use mage_instr::Program;
use mage_tree::Source;

/// The tree of a source without a fault, and the program that it unrolls to.
#[derive(Debug, Drop)]
pub struct Loaded {
    pub source: Source,
    pub program: Program,
}
