// The instructions of a worker that are emitted.
ghost use Rattle.std.specs.Prelude.{◌≡◌, take};
ghost use Rattle.mage_linked.specs.Emission.{emission_of, own_instrs};
ghost use Rattle.mage_linked.specs.Workers.{list_at};
ghost use Rattle.mage_deal.specs.Dealing.{turns_of};

use mage_instr::{Instr, Program};
use sqlite_items::Items;

// How many of these are the worker's turns.
fn turns_of(order: &[u8], worker: u16) -> usize
    ensures { result ≡ turns_of worker order.now }
{
    order
        .iter()
        .filter(|turn| u16::from(**turn) == worker)
        .count()
}

// The first so many instructions, or all.
fn first_of(instrs: &[Instr], count: usize) -> &[Instr]
    ensures { result.now ≡ take count instrs.now }
{
    if count < instrs.len() {
        &instrs[..count]
    } else {
        instrs
    }
}

// A worker's instructions; of a worker that isn't there there are none.
fn list_at(workers: &[Items<Instr>], worker: u16) -> &[Instr]
    ensures { result.now ≡ list_at workers.now worker }
{
    match workers.get(usize::from(worker)) {
        Some(instrs) => instrs.as_slice(),
        None => &[],
    }
}

/// The instructions of a worker that are emitted, in order.
pub(crate) fn own_instrs(program: &Program, worker: u16) -> &[Instr]
    ensures { result.now ≡ own_instrs (emission_of program.now) worker }
{
    let turns = turns_of(program.order.as_slice(), worker);
    first_of(list_at(program.workers.as_slice(), worker), turns)
}
