// A desk in memory whose stores keep a log and may lie.
ghost use Rattle.std.specs.Prelude.{◌≡◌, ◌<◌, ◌≤◌, ◌∷◌, ◌++◌, [], length, set, get_or, IfOk, OnOk, OnErr};
ghost use Rattle.mage_base.specs.Calls.{is_listed};
ghost use Rattle.mage_base.specs.Desk.{FaultCounted, IsNotTooLong};
ghost use Rattle.mage_base.specs.Ledger.{returned_in};
ghost use Rattle.mage_base.specs.MemDesk.{after_desk_call};
ghost use Rattle.mage_log_store.specs.LogDesk.{new_log_desk, log_desk_told, log_at, logs_of, Covers};

use crate::{Lie, LogStore};
use mage_base::{Desk, DeskError, Failed, Items, Ledger, MemDesk, MemSink, MemSource, Memory};
use mage_history::PageHistory;
use std::alloc::Global;
use std::marker::Model;

/// A desk in memory, each store of which is a `LogStore` of so many calls and with these lies. It
/// tells what the desk in memory tells, and the logs of its stores.
#[derive(Drop)]
pub struct LogDesk {
    inner: MemDesk,
    calls: u64,
    lies: Items<Lie>,
    ledger: Ledger,
    logs: Vec<PageHistory>,
}

impl Model for LogDesk {
    ghost use Rattle.mage_log_store.specs.LogDesk.{LogDeskState, logs_of, Covers};

    ghost Value = { LogDeskState };

    ghost view = { λ desk. record {
      inner = desk.inner;
      calls = desk.calls;
      lies = desk.lies;
      ledger = desk.ledger;
      logs = logs_of desk.logs.items;
    } };

    ghost invariant = { λ desk. Covers (logs_of desk.logs.items) desk.ledger.lent };
}

impl LogDesk {
    /// The desk `inner`, but for its stores.
    pub fn make(alloc: Global, inner: MemDesk, calls: u64, lies: &[Lie]) -> Result<LogDesk, Memory>
        ensures { IfOk result (λ desk. desk ≡ new_log_desk inner calls lies.now) }
    {
        Ok(LogDesk {
            inner,
            calls,
            lies: Items::from_slice(alloc, lies)?,
            ledger: Ledger::new(alloc),
            logs: Vec::new(alloc),
        })
    }

    /// What was said so far.
    pub fn said(&self) -> &[u8]
        ensures { result.now ≡ self.now.inner.said.bytes }
    {
        self.inner.said()
    }

    /// What was warned so far.
    pub fn warned(&self) -> &[u8]
        ensures { result.now ≡ self.now.inner.warned.bytes }
    {
        self.inner.warned()
    }

    /// How many pages were read of the worker's stores that were given back.
    pub fn reads(&self, worker: u16) -> u64
        ensures { result ≡ ((log_desk_told self.now).returned worker).reads }
    {
        self.ledger.returned(worker).reads
    }

    /// How many pages were written of the worker's stores that were given back.
    pub fn writes(&self, worker: u16) -> u64
        ensures { result ≡ ((log_desk_told self.now).returned worker).writes }
    {
        self.ledger.returned(worker).writes
    }
}

// A log with another one behind it.
fn append(log: &mut PageHistory, later: &PageHistory)
    ensures { log.new.transfers ≡ log.old.transfers ++ later.now.transfers }
{}

// Makes the list long enough for this worker.
fn reach(logs: &mut Vec<PageHistory>, worker: u16) -> Result<(), Memory>
    ensures reached { OnOk result (worker < length logs.new.items) }
    ensures longer { length logs.old.items ≤ length logs.new.items }
    ensures same { log_at (logs_of logs.new.items) ≡ log_at (logs_of logs.old.items) }
{
    let wanted = worker as usize + 1;
    for _ in logs.len()..wanted {
        logs.push(PageHistory::new())?;
    }
    Ok(())
}

// Notes that a store is handed out, and takes room for the log of its worker.
fn lend(
    ledger: &mut Ledger,
    logs: &mut Vec<PageHistory>,
    worker: u16,
    shard: u16,
) -> Result<(), Memory>
    ensures ok { OnOk result (ledger.new.lent
        ≡ ledger.old.lent ++ record { worker = worker; shard = shard } ∷ []) }
    ensures err { OnErr result (ledger.new.lent ≡ ledger.old.lent) }
    ensures returned { returned_in ledger.new.totals ≡ returned_in ledger.old.totals }
    ensures same { log_at (logs_of logs.new.items) ≡ log_at (logs_of logs.old.items) }
    ensures covers { Covers (logs_of logs.old.items) ledger.old.lent
        → Covers (logs_of logs.new.items) ledger.new.lent }
{
    reach(logs, worker)?;
    ledger.lend(worker, shard)
}

// Counts the call for a store, which fails where it is listed.
fn begin(
    inner: &mut MemDesk,
    alloc: Global,
    worker: u16,
    shard: u16,
    page_bytes: u32,
) -> Result<(), DeskError>
    ensures short { IsNotTooLong result }
    ensures cause { FaultCounted inner.old.faults inner.new.faults result }
    ensures after { inner.new ≡ record (after_desk_call inner.old (is_listed inner.old.calls)) {
      ledger = inner.new.ledger;
    } }
{
    match inner.store(alloc, worker, shard, 0, page_bytes) {
        Ok(_) => Ok(()),
        Err(error) => Err(error),
    }
}

// Adds a store's log to that of its worker.
fn give(logs: &mut Vec<PageHistory>, worker: usize, later: &PageHistory)
    requires { worker < length logs.old.items }
    ensures logs { logs_of logs.new.items ≡ set (logs_of logs.old.items) worker
        (get_or (logs_of logs.old.items) worker [] ++ later.now.transfers) }
{
    append(&mut logs[worker], later);
}

impl Desk for LogDesk {
    type Input = MemSource;

    type Output = MemSink;

    type Pages = LogStore;

    ghost tells = { log_desk_told };

    fn fetch(&mut self, alloc: Global, name: &str, limit: u64) -> Result<Vec<u8>, DeskError> {
        self.inner.fetch(alloc, name, limit)
    }

    fn open_in(&mut self, alloc: Global, name: &str) -> Result<MemSource, DeskError> {
        self.inner.open_in(alloc, name)
    }

    fn close_in(&mut self, name: &str, source: MemSource) {
        self.inner.close_in(name, source);
    }

    fn open_out(&mut self, alloc: Global, name: &str, room: u64) -> Result<MemSink, DeskError> {
        self.inner.open_out(alloc, name, room)
    }

    fn close_out(&mut self, name: &str, sink: MemSink) -> Result<(), Failed> {
        self.inner.close_out(name, sink)
    }

    fn store(
        &mut self,
        alloc: Global,
        worker: u16,
        shard: u16,
        pages: u32,
        page_bytes: u32,
    ) -> Result<LogStore, DeskError> {
        if let Err(error) = begin(&mut self.inner, alloc, worker, shard, page_bytes) {
            return Err(error);
        }
        let lies = self.lies.as_slice();
        let Ok(store) = LogStore::make(alloc, pages, page_bytes, self.calls, lies) else {
            return Err(DeskError::Memory);
        };
        match lend(&mut self.ledger, &mut self.logs, worker, shard) {
            Ok(()) => Ok(store),
            Err(_) => Err(DeskError::Memory),
        }
    }

    fn give_store(&mut self, worker: u16, shard: u16, store: LogStore) {
        self.ledger.give(worker, shard, store.counts());
        give(&mut self.logs, worker as usize, store.log());
    }

    fn say(&mut self, bytes: &[u8]) -> Result<(), Failed> {
        self.inner.say(bytes)
    }

    fn warn(&mut self, bytes: &[u8]) -> Result<(), Failed> {
        self.inner.warn(bytes)
    }
}
