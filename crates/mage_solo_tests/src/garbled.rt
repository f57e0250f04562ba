// Runs that garble, of one worker and of two.
ghost use Rattle.std.specs.Prelude.{◌≡◌, ◌<◌, length, IfOk};
ghost use Rattle.std.specs.List.{All};
ghost use Rattle.mage_verify.specs.Literals.{AreDirectives};

use crate::one::{first_of, only};
use crate::two::{Given, both};
use mage_base::{MemSink, MemStore, Memory};
use mage_core::RunFault;
use mage_instr::Directive;
use mage_small_programs::{one_worker, two_workers};
use mage_solo::{Garbled, run_garbling};
use mage_verify::verify;
use std::alloc::Global;

/// What a run of one worker comes to: what stopped it, if anything did, and its sink.
#[derive(Drop)]
pub struct Lone {
    pub fault: Option<RunFault>,
    pub sink: MemSink,
}

/// The sinks of two workers.
#[derive(Drop)]
pub struct Sinks {
    pub first: MemSink,
    pub second: MemSink,
}

/// What a run of two workers comes to: what stopped it, if anything did, and their sinks.
#[derive(Drop)]
pub struct Pair {
    pub fault: Option<RunFault>,
    pub sinks: Sinks,
}

/// A store of one page of 64 wires, alone on its shelf.
pub(crate) fn shelf(alloc: Global) -> Result<Vec<MemStore>, Memory>
    ensures { IfOk result (λ shelf. (length shelf.items ≡ 1)
        × All (λ store. store.page_bytes ≡ 1024) shelf.items) }
{
    let mut shelf = Vec::new(alloc);
    shelf.push(MemStore::make(alloc, 1, 1024, &[])?)?;
    Ok(shelf)
}

/// Garbles one worker, with a seed of 32 zero bytes and on these values of the garbler. `Memory` too where the directives have a
/// fault.
pub fn garble_alone(
    alloc: Global,
    directives: &[Directive],
    garbler: &[u128],
    sink: MemSink,
) -> Result<Lone, Memory>
    requires count { length directives.now < 100 }
    requires fields { AreDirectives 1 0 directives.now }
{
    let plan = one_worker(alloc, 2, directives)?;
    let Ok(verified) = verify(alloc, plan) else {
        return Err(Memory);
    };
    let garbler = only(alloc, garbler)?;
    let mut sinks = Vec::new(alloc);
    sinks.push(sink)?;
    let mut stores = Vec::new(alloc);
    stores.push(shelf(alloc)?)?;
    let ended = run_garbling(alloc, verified.parts(), [0; 32], garbler, sinks, stores);
    came(ended)
}

// The one worker of a run.
fn came(ended: Garbled<MemStore, MemSink>) -> Result<Lone, Memory> {
    let Garbled {
        fault,
        sinks,
        stores: _,
    } = ended;
    let sink = first_of(sinks)?;
    Ok(Lone { fault, sink })
}

/// The same of two workers.
pub fn garble_pair(
    alloc: Global,
    first: &[Directive],
    second: &[Directive],
    garbler: Given<'_>,
    sinks: Sinks,
) -> Result<Pair, Memory>
    requires count { (length first.now < 100) × (length second.now < 100) }
    requires first { AreDirectives 2 0 first.now }
    requires second { AreDirectives 2 1 second.now }
{
    let plan = two_workers(alloc, first, second)?;
    let Ok(verified) = verify(alloc, plan) else {
        return Err(Memory);
    };
    let garbler = both(alloc, garbler)?;
    let sinks = in_order(alloc, sinks)?;
    let mut stores = Vec::new(alloc);
    stores.push(shelf(alloc)?)?;
    stores.push(shelf(alloc)?)?;
    let ended = run_garbling(alloc, verified.parts(), [0; 32], garbler, sinks, stores);
    pair_of(ended)
}

// Two sinks in a list.
fn in_order(alloc: Global, sinks: Sinks) -> Result<Vec<MemSink>, Memory>
    ensures { IfOk result (λ list. length list.items ≡ 2) }
{
    let Sinks { first, second } = sinks;
    let mut list = Vec::new(alloc);
    list.push(first)?;
    list.push(second)?;
    Ok(list)
}

// The two workers of a run.
fn pair_of(ended: Garbled<MemStore, MemSink>) -> Result<Pair, Memory> {
    let Garbled {
        fault,
        mut sinks,
        stores: _,
    } = ended;
    let second = sinks.pop().ok_or(Memory)?;
    let first = sinks.pop().ok_or(Memory)?;
    Ok(Pair {
        fault,
        sinks: Sinks { first, second },
    })
}
