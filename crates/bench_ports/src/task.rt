// What the words ask for, and what comes of it.
ghost use Rattle.std.specs.Prelude.{◌≡◌, length, IfOk};
ghost use Rattle.mage_store_tests.specs.Rest.{IsReady};

use mage_base::{MemStore, Memory};
use mage_port::SwapPort;
use mage_store_tests::{Went, sealed_over, serial_over, written_and_read};
use sha2::{Digest, Sha256};
use std::alloc::{AllocError, Global};

/// Why nothing is printed.
#[derive(Clone, Copy)]
pub enum Trouble {
    Words,
    Memory,
    Port,
    Print,
}

impl From<AllocError> for Trouble {
    fn from(_: AllocError) -> Self {
        Trouble::Memory
    }
}

impl From<Memory> for Trouble {
    fn from(_: Memory) -> Self {
        Trouble::Memory
    }
}

/// What pages go through.
#[derive(Clone, Copy)]
pub enum Kind {
    Serial,
    Sealed,
    Digests,
}

/// How many pages are written and read back, and how long each is.
#[derive(Clone, Copy)]
pub struct Task {
    pub kind: Kind,
    pub bytes: u32,
    pub count: u32,
}

// The words KIND BYTES COUNT.
pub fn task_of(words: &[String]) -> Result<Task, Trouble> {
    let [kind, bytes, count] = words else {
        return Err(Trouble::Words);
    };
    let kind = kind_of(kind.as_str())?;
    let bytes = bytes.as_str().parse::<u32>().map_err(|_| Trouble::Words)?;
    let count = count.as_str().parse::<u32>().map_err(|_| Trouble::Words)?;
    Ok(Task { kind, bytes, count })
}

fn kind_of(word: &str) -> Result<Kind, Trouble> {
    match word {
        "serial" => Ok(Kind::Serial),
        "sealed" => Ok(Kind::Sealed),
        "digests" => Ok(Kind::Digests),
        _ => Err(Trouble::Words),
    }
}

/// The last byte of the page that comes of the task.
pub fn result_of(alloc: Global, task: Task) -> Result<u8, Trouble> {
    let mut from = page_of(alloc, task.bytes)?;
    match task.kind {
        Kind::Serial => through_serial(alloc, &mut from, task),
        Kind::Sealed => through_sealed(alloc, &mut from, task),
        Kind::Digests => Ok(digests(&mut from, task.count)),
    }
}

fn page_of(alloc: Global, bytes: u32) -> Result<Vec<u8>, Trouble>
    ensures { IfOk result (λ page. length page.items ≡ bytes) }
{
    let mut page = Vec::new(alloc);
    page.resize(bytes as usize, b'x')?;
    Ok(page)
}

fn through_serial(alloc: Global, from: &mut Vec<u8>, task: Task) -> Result<u8, Trouble>
    requires { length from.old.items ≡ task.bytes }
{
    let store = MemStore::make(alloc, 2, task.bytes, &[])?;
    let mut port = serial_over(alloc, task.bytes, store)?;
    pages_through(alloc, &mut port, from, task)
}

fn through_sealed(alloc: Global, from: &mut Vec<u8>, task: Task) -> Result<u8, Trouble>
    requires { length from.old.items ≡ task.bytes }
{
    let store = MemStore::make(alloc, 2, task.bytes, &[])?;
    let mut port = sealed_over(alloc, task.bytes, store)?;
    pages_through(alloc, &mut port, from, task)
}

// Writes a page and reads it back, so many times.
fn pages_through<P: SwapPort>(
    alloc: Global,
    port: &mut P,
    from: &mut Vec<u8>,
    task: Task,
) -> Result<u8, Trouble>
    requires ready { IsReady (P.tells port.old) task.bytes }
    requires whole { length from.old.items ≡ task.bytes }
{
    let mut into = page_of(alloc, task.bytes)?;
    for turn in 0..task.count {
        mark(from, turn);
        match written_and_read(port, 1, from, &mut into) {
            Went::Back => {}
            _ => return Err(Trouble::Port),
        }
    }
    Ok(into.last().copied().unwrap_or(0))
}

// As many digests as a sealed port takes.
fn digests(from: &mut Vec<u8>, count: u32) -> u8 {
    let mut last = 0;
    for turn in 0..count {
        mark(from, turn);
        let written = Sha256::digest(from.as_slice());
        let read = Sha256::digest(from.as_slice());
        last = written[0] ^ read[31];
    }
    last
}

// Makes the page another one.
fn mark(from: &mut Vec<u8>, turn: u32)
    ensures { length from.new.items ≡ length from.old.items }
{
    if let Some(last) = from.last_mut() {
        *last = (turn % 256) as u8;
    }
}
