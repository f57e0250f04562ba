// The instructions that are emitted.
ghost use Rattle.std.specs.Prelude.{◌≡◌, ◌<◌, ◌++◌, ◌∷◌, [], ℕ, length, slice_index, OnOk};
ghost use Rattle.mage_linked.specs.Emission.{count_of};
ghost use Rattle.mage_unroll.specs.Limits.{MOST_INSTRS as most_instrs};

use mage_base::Memory;
use mage_instr::Instr;
use mage_linked::Emitted;
use std::alloc::Global;

/// The instructions so far in the order of their emission, and how many of them each worker has.
#[derive(Drop)]
pub struct Emission {
    pub emitted: Vec<Emitted>,
    // By the worker, of whatever number.
    counts: [u32; 256],
    ghost counted: { (worker : ℕ) → worker < 256 →
        slice_index counts worker ≡ count_of worker emitted.items },
}

impl Emission {
    /// No instruction.
    pub fn none(alloc: Global) -> Emission
        ensures { result.emitted.items ≡ [] }
    {
        Emission {
            emitted: Vec::new(alloc),
            counts: [0; 256],
        }
    }

    /// How many instructions the worker has.
    pub fn count(&self, worker: u8) -> u32
        ensures { result ≡ count_of worker self.now.emitted.items }
    {
        self.counts[usize::from(worker)]
    }

    /// One instruction more on a worker.
    pub fn add(&mut self, worker: u8, instr: Instr) -> Result<(), Memory>
        requires { length self.old.emitted.items < most_instrs }
        ensures { OnOk result (self.new.emitted.items
            ≡ self.old.emitted.items ++ record { worker = worker; instr = instr } ∷ []) }
    {
        self.emitted.push(Emitted { worker, instr })?;
        self.counts[usize::from(worker)] += 1;
        Ok(())
    }

    /// The instructions.
    pub fn into_emitted(self) -> Vec<Emitted>
        ensures { result.items ≡ self.emitted.items }
    {
        let Emission { emitted, .. } = self;
        emitted
    }
}
