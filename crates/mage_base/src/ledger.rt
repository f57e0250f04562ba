// The stores that a desk handed out and got back.
ghost use Rattle.std.specs.Prelude.{◌≡◌, ◌<◌, ◌≤◌, ◌∷◌, ◌++◌, [], length, map, Contains, IfSome, IfNone, OnOk, OnErr, if◌then◌else◌, ◌==◌};
ghost use Rattle.std.specs.List.{remove};
ghost use Rattle.mage_base.specs.Desk.{without_store};
ghost use Rattle.mage_base.specs.Ledger.{empty_ledger, counts_in, id_of, returned_in, with_counts};

use crate::{Items, MemStore, Memory};
use std::alloc::Global;
use std::marker::Model;

/// A store that is handed out.
#[derive(Clone, Copy, Drop)]
pub struct LentStore {
    worker: u16,
    shard: u16,
}

/// How many pages were read and written, and how often a call failed: of a store, or the sums of several. They stay at
/// their greatest value.
#[derive(Clone, Copy, Debug, PartialEq, Eq)]
pub struct StoreCounts {
    pub reads: u64,
    pub writes: u64,
    pub faults: u64,
}

/// The stores that a desk handed out, and for each worker the sums of those that were given back.
#[derive(Drop)]
pub struct Ledger {
    lent: Vec<LentStore>,
    totals: Vec<StoreCounts>,
}

impl Model for Ledger {
    ghost use Rattle.std.specs.Prelude.{map};
    ghost use Rattle.mage_base.specs.Ledger.{LedgerState, id_of, Covers};

    ghost Value = { LedgerState };

    ghost view = { λ ledger.
        record { lent = map id_of ledger.lent.items; totals = ledger.totals.items } };

    ghost invariant = { λ ledger. Covers ledger.totals.items ledger.lent.items };
}

impl Ledger {
    /// No store yet.
    pub fn new(alloc: Global) -> Ledger
        ensures { result ≡ empty_ledger }
    {
        Ledger {
            lent: Vec::new(alloc),
            totals: Vec::new(alloc),
        }
    }

    /// Notes that a store is handed out, and takes the room for its sums. After `Memory` it isn't handed out.
    pub fn lend(&mut self, worker: u16, shard: u16) -> Result<(), Memory>
        ensures ok { OnOk result (self.new.lent
            ≡ self.old.lent ++ record { worker = worker; shard = shard } ∷ []) }
        ensures err { OnErr result (self.new.lent ≡ self.old.lent) }
        ensures returned { returned_in self.new.totals ≡ returned_in self.old.totals }
    {
        reach(&mut self.totals, worker)?;
        self.lent.push(LentStore { worker, shard })?;
        Ok(())
    }

    /// Notes that a store is given back, and adds its counts to those of its worker.
    pub fn give(&mut self, worker: u16, shard: u16, counts: StoreCounts)
        requires { Contains self.old.lent (record { worker = worker; shard = shard }) }
        ensures lent { self.new.lent
            ≡ without_store self.old.lent (record { worker = worker; shard = shard }) }
        ensures returned { returned_in self.new.totals ≡ (λ other. if other == worker
            then with_counts (returned_in self.old.totals other) counts
            else returned_in self.old.totals other) }
    {
        add(&mut self.totals, worker as usize, counts);
        if let Some(place) = place_of(self.lent.as_slice(), worker, shard) {
            let _ = self.lent.remove(place);
        }
    }

    /// The sums of the worker's stores that were given back.
    pub fn returned(&self, worker: u16) -> StoreCounts
        ensures { result ≡ counts_in self.now.totals worker }
    {
        match self.totals.get(worker as usize) {
            Some(counts) => *counts,
            None => NO_COUNTS,
        }
    }
}

const NO_COUNTS: StoreCounts = StoreCounts {
    reads: 0,
    writes: 0,
    faults: 0,
};

// Makes the table long enough for this worker.
fn reach(totals: &mut Vec<StoreCounts>, worker: u16) -> Result<(), Memory>
    ensures reached { OnOk result (worker < length totals.new.items) }
    ensures longer { length totals.old.items ≤ length totals.new.items }
    ensures returned { returned_in totals.new.items ≡ returned_in totals.old.items }
{
    let wanted = worker as usize + 1;
    if totals.len() < wanted {
        totals.resize(wanted, NO_COUNTS)?;
    }
    Ok(())
}

// Adds a store's counts to the sums of a worker.
fn add(totals: &mut Vec<StoreCounts>, worker: usize, counts: StoreCounts)
    requires { worker < length totals.old.items }
    ensures length { length totals.new.items ≡ length totals.old.items }
    ensures returned { returned_in totals.new.items ≡ (λ other. if other == worker
        then with_counts (returned_in totals.old.items other) counts
        else returned_in totals.old.items other) }
{
    let held = totals[worker];
    totals[worker] = StoreCounts {
        reads: held.reads.saturating_add(counts.reads),
        writes: held.writes.saturating_add(counts.writes),
        faults: held.faults.saturating_add(counts.faults),
    };
}

// Where the first store with this worker and shard stands.
fn place_of(lent: &[LentStore], worker: u16, shard: u16) -> Option<usize>
    ensures within { IfSome result (λ place. place < length lent.now) }
    ensures place { IfSome result (λ place. map id_of (remove lent.now place)
        ≡ without_store (map id_of lent.now) (record { worker = worker; shard = shard })) }
    ensures none { IfNone result (map id_of lent.now
        ≡ without_store (map id_of lent.now) (record { worker = worker; shard = shard })) }
{
    for place in 0..lent.len() {
        if lent[place].worker == worker && lent[place].shard == shard {
            return Some(place);
        }
    }
    None
}
