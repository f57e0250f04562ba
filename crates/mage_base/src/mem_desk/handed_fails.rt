// The calls of what a desk in memory hands out that are to fail.
ghost use Rattle.std.specs.Prelude.{◌≡◌, [], IfOk, IsTrue};
ghost use Rattle.mage_base.specs.DeskFails.{by_name, handed_of, hands_no_fault, calls_named, calls_of_store};

use crate::{DeskFails, Items, Memory};
use std::alloc::Global;

/// The calls of the sources or of the sinks with a name.
#[derive(Drop)]
pub(crate) struct NamedCalls {
    name: Items<u8>,
    calls: Items<u64>,
}

/// The calls of stores, by worker and shard, of sources and of sinks.
#[derive(Drop)]
pub(crate) struct HandedFails {
    stores: Items<(u16, u16, Items<u64>)>,
    inputs: Items<NamedCalls>,
    outputs: Items<NamedCalls>,
}

impl HandedFails {
    pub(crate) fn make(alloc: Global, fails: &DeskFails) -> Result<HandedFails, Memory>
        ensures { IfOk result (λ handed. handed ≡ handed_of fails.now) }
    {
        Ok(HandedFails {
            stores: copied(alloc, fails.stores.as_slice())?,
            inputs: named(alloc, fails.inputs.as_slice())?,
            outputs: named(alloc, fails.outputs.as_slice())?,
        })
    }

    /// The calls of the store of this worker and shard.
    #[tactic(auto, using(crate::proofs::FailLists::no_store_calls))]
    pub(crate) fn store(&self, worker: u16, shard: u16) -> &[u64]
        ensures calls { result.now ≡ calls_of_store self.now.stores worker shard }
        ensures none { IsTrue (hands_no_fault self.now) → result.now ≡ [] }
    {
        calls_of_store(self.stores.as_slice(), worker, shard)
    }

    /// The calls of the sources with this name.
    #[tactic(auto, using(crate::proofs::FailLists::no_named_calls))]
    pub(crate) fn input(&self, name: &str) -> &[u64]
        ensures calls { result.now ≡ calls_named self.now.inputs name.now }
        ensures none { IsTrue (hands_no_fault self.now) → result.now ≡ [] }
    {
        calls_named(self.inputs.as_slice(), name)
    }

    /// The calls of the sinks with this name.
    #[tactic(auto, using(crate::proofs::FailLists::no_named_calls))]
    pub(crate) fn output(&self, name: &str) -> &[u64]
        ensures calls { result.now ≡ calls_named self.now.outputs name.now }
        ensures none { IsTrue (hands_no_fault self.now) → result.now ≡ [] }
    {
        calls_named(self.outputs.as_slice(), name)
    }
}

fn copied(
    alloc: Global,
    stores: &[(u16, u16, Items<u64>)],
) -> Result<Items<(u16, u16, Items<u64>)>, Memory>
    ensures { IfOk result (λ copy. copy ≡ stores.now) }
{
    let mut copy = Items::new(alloc);
    for store in stores {
        copy.push((
            store.0,
            store.1,
            Items::from_slice(alloc, store.2.as_slice())?,
        ))?;
    }
    Ok(copy)
}

fn named(alloc: Global, entries: &[(String, Items<u64>)]) -> Result<Items<NamedCalls>, Memory>
    ensures { IfOk result (λ named. named ≡ by_name entries.now) }
{
    let mut named = Items::new(alloc);
    for entry in entries {
        named.push(NamedCalls {
            name: Items::from_slice(alloc, entry.0.as_bytes())?,
            calls: Items::from_slice(alloc, entry.1.as_slice())?,
        })?;
    }
    Ok(named)
}

fn calls_of_store(stores: &[(u16, u16, Items<u64>)], worker: u16, shard: u16) -> &[u64]
    ensures { result.now ≡ calls_of_store stores.now worker shard }
{
    for store in stores {
        if store.0 == worker && store.1 == shard {
            return store.2.as_slice();
        }
    }
    &[]
}

fn calls_named<'a>(entries: &'a [NamedCalls], name: &str) -> &'a [u64]
    ensures { result.now ≡ calls_named entries.now name.now }
{
    for entry in entries {
        if entry.name.as_slice() == name.as_bytes() {
            return entry.calls.as_slice();
        }
    }
    &[]
}
