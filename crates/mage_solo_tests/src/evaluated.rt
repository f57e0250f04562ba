// Runs of one worker that evaluate.
ghost use Rattle.std.specs.Prelude.{◌<◌, length};
ghost use Rattle.mage_verify.specs.Literals.{AreDirectives};

use crate::garbled::shelf;
use crate::one::first_of;
use mage_base::{MemSource, MemStore, Memory};
use mage_core::RunFault;
use mage_instr::Directive;
use mage_label::Label;
use mage_small_programs::one_worker;
use mage_solo::{Evaluated, run_evaluating};
use mage_verify::verify;
use std::alloc::Global;

/// What a run of one worker comes to: what it put out, or what stopped it; and its source.
#[derive(Drop)]
pub struct Decoded {
    pub outcome: Result<Vec<u128>, RunFault>,
    pub source: MemSource,
}

/// Evaluates one worker, on these labels. `Memory` too where the directives have a fault.
pub fn evaluate_alone(
    alloc: Global,
    directives: &[Directive],
    labels: &[Label],
    source: MemSource,
) -> Result<Decoded, Memory>
    requires count { length directives.now < 100 }
    requires fields { AreDirectives 1 0 directives.now }
{
    let plan = one_worker(alloc, 2, directives)?;
    let Ok(verified) = verify(alloc, plan) else {
        return Err(Memory);
    };
    let mut dealt = Vec::new(alloc);
    dealt.push(Vec::from_slice(alloc, labels)?)?;
    let mut sources = Vec::new(alloc);
    sources.push(source)?;
    let mut stores = Vec::new(alloc);
    stores.push(shelf(alloc)?)?;
    let ended = run_evaluating(alloc, verified.parts(), dealt, sources, stores);
    came(ended)
}

// The one worker of a run.
fn came(ended: Evaluated<MemStore, MemSource>) -> Result<Decoded, Memory> {
    let Evaluated {
        outcome,
        sources,
        stores: _,
    } = ended;
    let source = first_of(sources)?;
    let outcome = match outcome {
        Ok(outputs) => Ok(first_of(outputs)?),
        Err(fault) => Err(fault),
    };
    Ok(Decoded { outcome, source })
}
