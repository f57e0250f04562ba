// A memory program with its costs.
use crate::WorkerStats;
use mage_instr::MemProgram;

/// The memory program of a source, and what it costs, worker by worker.
#[derive(Drop)]
pub struct Planned {
    pub program: MemProgram,
    pub stats: Vec<WorkerStats>,
}
