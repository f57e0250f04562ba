// The desk over files, standard output and standard error.
ghost use Rattle.std.specs.Prelude.{◌≡◌, ◌≢◌, ◌≤◌, length, IfOk};
ghost use Rattle.mage_base.specs.Desk.{FaultCounted, IsNotTooLong};
ghost use Rattle.mage_base.specs.Faults.{Counted, count_after};
ghost use Rattle.mage_base.specs.Ledger.{empty_ledger};
ghost use Rattle.mage_outside.specs.Untold.{untold_source, untold_sink, untold_store, untold_desk};

use crate::reading::read_all;
use crate::{FileSink, FileSource, FileStore};
use mage_base::{Desk, DeskError, Failed, Ledger, Memory};
use std::alloc::Global;
use std::fs::{self, OpenOptions};
use std::io::{self, ErrorKind, Write};
use std::rt::Files;

#[cfg(test)]
mod tests;

/// A desk over files, standard output and standard error. It tells its counts and which stores it handed out, and nothing
/// of what files hold. It ignores the room that a sink is asked with, and the number of a store's pages.
///
/// The store of worker W and shard S is the file `mage.W.S.pages` in the current folder, which is made anew when it is
/// asked for and removed when it is given back.
#[derive(Drop)]
pub struct RealDesk<'a, R: Files + Print, E: Print + Drop> {
    rt: &'a R,
    errors: E,
    faults: u64,
    ledger: Ledger,
}

impl<'a, R: Files + Print, E: Print + Drop> RealDesk<'a, R, E> {
    /// A desk that says to the runtime's standard output and warns to `errors`. It has counted no fault, and handed out no
    /// store.
    pub fn new(rt: &'a R, alloc: Global, errors: E) -> Self
        ensures { untold_desk result.faults result.ledger ≡ untold_desk 0 empty_ledger }
    {
        RealDesk {
            rt,
            errors,
            faults: 0,
            ledger: Ledger::new(alloc),
        }
    }

    fn count_faults(&mut self, more: u64)
        ensures rises { self.old.faults ≤ self.new.faults }
        ensures after { self.new ≡ record self.old { faults = count_after self.old.faults more } }
    {
        self.faults = self.faults.saturating_add(more);
    }

    // Counts a fault, where there was one.
    fn counted<T>(&mut self, answer: Result<T, DeskError>) -> Result<T, DeskError>
        ensures same { result ≡ answer }
        ensures cause { FaultCounted self.old.faults self.new.faults result }
        ensures rest { self.new ≡ record self.old { faults = self.new.faults } }
    {
        if matches!(&answer, Err(DeskError::Fault)) {
            self.count_faults(1);
        }
        answer
    }

    fn counted_writing(&mut self, written: io::Result<()>) -> Result<(), Failed>
        ensures cause { Counted self.old.faults self.new.faults result }
        ensures rest { self.new ≡ record self.old { faults = self.new.faults } }
    {
        match written {
            Ok(()) => Ok(()),
            Err(_) => {
                self.count_faults(1);
                Err(Failed)
            }
        }
    }
}

// Why a file can't be opened.
fn at_opening(error: io::Error) -> DeskError
    ensures { result ≢ DeskError.TooLong }
{
    if error.kind() == ErrorKind::OutOfMemory {
        DeskError::Memory
    } else {
        DeskError::Fault
    }
}

fn fetch_file<R: Files>(rt: &R, alloc: Global, name: &str, limit: u64) -> Result<Vec<u8>, DeskError>
    ensures { IfOk result (λ bytes. length bytes.items ≤ limit) }
{
    match fs::open(rt, name) {
        Ok(mut file) => read_all(&mut file, alloc, limit),
        Err(error) => Err(at_opening(error)),
    }
}

fn open_source<R: Files>(
    rt: &R,
    alloc: Global,
    name: &str,
) -> Result<FileSource<R::File>, DeskError>
    ensures fresh { IfOk result (λ source. source.faults ≡ 0) }
    ensures short { IsNotTooLong result }
{
    match fs::open(rt, name) {
        Ok(file) => FileSource::make(alloc, file).map_err(|_| DeskError::Memory),
        Err(error) => Err(at_opening(error)),
    }
}

fn open_sink<R: Files>(rt: &R, alloc: Global, name: &str) -> Result<FileSink<R::File>, DeskError>
    ensures fresh { IfOk result (λ sink. sink.faults ≡ 0) }
    ensures short { IsNotTooLong result }
{
    match fs::create(rt, name) {
        Ok(file) => FileSink::make(alloc, file).map_err(|_| DeskError::Memory),
        Err(error) => Err(at_opening(error)),
    }
}

fn store_name(alloc: Global, worker: u16, shard: u16) -> Result<String, Memory> {
    Ok(format!(in alloc; "mage.{worker}.{shard}.pages")?)
}

fn open_store<R: Files>(
    rt: &R,
    alloc: Global,
    worker: u16,
    shard: u16,
    page_bytes: u32,
) -> Result<FileStore<R::File>, DeskError>
    ensures fresh { IfOk result (λ store. untold_store store.page_bytes store.reads store.writes store.faults
        ≡ untold_store page_bytes 0 0 0) }
    ensures short { IsNotTooLong result }
{
    let Ok(name) = store_name(alloc, worker, shard) else {
        return Err(DeskError::Memory);
    };
    let mut how = OpenOptions::new();
    how.read(true).write(true).create(true).truncate(true);
    match how.open(rt, name.as_str()) {
        Ok(file) => Ok(FileStore::new(file, name, page_bytes)),
        Err(error) => Err(at_opening(error)),
    }
}

// Closes a store, and removes its file.
fn remove_store<R: Files>(rt: &R, store: FileStore<R::File>) {
    let name = store.close();
    let _ = fs::remove_file(rt, name.as_str());
}

fn write_out<P: Print>(to: &P, bytes: &[u8]) -> io::Result<()> {
    let mut out = io::writer(to);
    out.write_all(bytes)?;
    out.flush()
}

impl<R: Files + Print, E: Print + Drop> Desk for RealDesk<'_, R, E>
where
    R::File: Send,
{
    type Input = FileSource<R::File>;

    type Output = FileSink<R::File>;

    type Pages = FileStore<R::File>;

    ghost tells = { λ desk. untold_desk desk.faults desk.ledger };

    fn fetch(&mut self, alloc: Global, name: &str, limit: u64) -> Result<Vec<u8>, DeskError> {
        let answer = fetch_file(self.rt, alloc, name, limit);
        self.counted(answer)
    }

    fn open_in(&mut self, alloc: Global, name: &str) -> Result<FileSource<R::File>, DeskError> {
        let answer = open_source(self.rt, alloc, name);
        self.counted(answer)
    }

    fn close_in(&mut self, _name: &str, source: FileSource<R::File>) {
        self.count_faults(source.faults());
    }

    fn open_out(
        &mut self,
        alloc: Global,
        name: &str,
        _room: u64,
    ) -> Result<FileSink<R::File>, DeskError> {
        let answer = open_sink(self.rt, alloc, name);
        self.counted(answer)
    }

    fn close_out(&mut self, _name: &str, sink: FileSink<R::File>) -> Result<(), Failed> {
        let mut sink = sink;
        self.count_faults(sink.faults());
        let written = sink.flush();
        self.counted_writing(written)
    }

    fn store(
        &mut self,
        alloc: Global,
        worker: u16,
        shard: u16,
        _pages: u32,
        page_bytes: u32,
    ) -> Result<FileStore<R::File>, DeskError> {
        let answer = open_store(self.rt, alloc, worker, shard, page_bytes);
        let store = self.counted(answer)?;
        match self.ledger.lend(worker, shard) {
            Ok(()) => Ok(store),
            Err(_) => {
                remove_store(self.rt, store);
                Err(DeskError::Memory)
            }
        }
    }

    fn give_store(&mut self, worker: u16, shard: u16, store: FileStore<R::File>) {
        self.ledger.give(worker, shard, store.counts());
        remove_store(self.rt, store);
    }

    fn say(&mut self, bytes: &[u8]) -> Result<(), Failed> {
        let written = write_out(self.rt, bytes);
        self.counted_writing(written)
    }

    fn warn(&mut self, bytes: &[u8]) -> Result<(), Failed> {
        let written = write_out(&self.errors, bytes);
        self.counted_writing(written)
    }
}
