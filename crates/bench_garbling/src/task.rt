// What the words ask for, and what comes of it.
ghost use Rattle.std.specs.Prelude.{◌≡◌, OnOk};
ghost use Rattle.mage_driver.specs.declared.standing.Standing.TheVariants as standing;

use mage_base::{MemSink, MemSource, Memory};
use mage_driver::Driver;
use mage_eval::EvalDriver;
use mage_garble::GarbleDriver;
use mage_gate_hash::gate_hashes;
use mage_instr::DriverFault;
use mage_label::{Label, hash};
use std::alloc::{AllocError, Global};

/// Why nothing is printed.
#[derive(Clone, Copy)]
pub enum Trouble {
    Words,
    Memory,
    Stream,
    Print,
}

impl From<AllocError> for Trouble {
    fn from(_: AllocError) -> Self {
        Trouble::Memory
    }
}

/// What is done.
#[derive(Clone, Copy)]
pub enum Kind {
    Garble,
    Both,
    Four,
    Two,
}

/// How many ANDs are made, and how.
#[derive(Clone, Copy)]
pub struct Task {
    pub kind: Kind,
    pub count: u32,
}

/// The words KIND COUNT.
pub fn task_of(words: &[String]) -> Result<Task, Trouble> {
    let [kind, count] = words else {
        return Err(Trouble::Words);
    };
    let kind = kind_of(kind.as_str())?;
    let count = count.as_str().parse::<u32>().map_err(|_| Trouble::Words)?;
    Ok(Task { kind, count })
}

fn kind_of(word: &str) -> Result<Kind, Trouble> {
    match word {
        "garble" => Ok(Kind::Garble),
        "both" => Ok(Kind::Both),
        "four" => Ok(Kind::Four),
        "two" => Ok(Kind::Two),
        _ => Err(Trouble::Words),
    }
}

const FIRST: Label = Label { bytes: [0x5a; 16] };

const SECOND: Label = Label { bytes: [0x3c; 16] };

/// The last byte of the label that comes of the task.
pub fn result_of(alloc: Global, task: Task) -> Result<u8, Trouble> {
    let label = match task.kind {
        Kind::Garble => garbled(alloc, task.count)?.0,
        Kind::Both => {
            let (_, sink) = garbled(alloc, task.count)?;
            evaluated(alloc, task.count, sink.taken())?
        }
        Kind::Four => four(task.count),
        Kind::Two => two(task.count),
    };
    Ok(label.bytes[15])
}

// So many ANDs, each of the one before it.
fn ands<D: Driver<Wire = Label>>(driver: &mut D, count: u32) -> Result<Label, DriverFault>
    requires { (D.tells driver.old).standing ≡ standing.Running }
    ensures { OnOk result ((D.tells driver.new).standing ≡ standing.Running) }
{
    let mut label = FIRST;
    for _place in 0..count {
        label = driver.and(label, SECOND)?;
    }
    Ok(label)
}

// The same, and the end of the work.
fn finished<D: Driver<Wire = Label>>(driver: &mut D, count: u32) -> Result<Label, DriverFault>
    requires { (D.tells driver.old).standing ≡ standing.Running }
{
    let label = ands(driver, count)?;
    driver.finish()?;
    Ok(label)
}

fn garbled(alloc: Global, count: u32) -> Result<(Label, MemSink), Trouble> {
    let sink = MemSink::make(alloc, u64::from(count) * 32, &[]).map_err(|_| Trouble::Memory)?;
    match GarbleDriver::make(alloc, [7; 32], 0, Vec::new(alloc), sink) {
        Ok(mut driver) => {
            let label = finished(&mut driver, count);
            Ok((label.unwrap_or(FIRST), driver.close()))
        }
        Err((_, Memory)) => Err(Trouble::Memory),
    }
}

fn evaluated(alloc: Global, count: u32, stream: &[u8]) -> Result<Label, Trouble> {
    let source = MemSource::make(alloc, stream, &[]).map_err(|_| Trouble::Memory)?;
    match EvalDriver::make(alloc, 0, Vec::new(alloc), 0, source) {
        Ok(mut driver) => {
            let label = finished(&mut driver, count);
            let (_, _) = driver.close();
            label.map_err(|_| Trouble::Stream)
        }
        Err((_, Memory)) => Err(Trouble::Memory),
    }
}

fn four(count: u32) -> Label {
    let mut label = FIRST;
    for place in 0..count {
        let tweak = u64::from(place) * 2;
        let hashes = gate_hashes(label, SECOND, FIRST, 0, tweak, tweak + 1);
        label = hashes
            .a_zero
            .xor(hashes.a_one)
            .xor(hashes.b_zero.xor(hashes.b_one));
    }
    label
}

fn two(count: u32) -> Label {
    let mut label = FIRST;
    for place in 0..count {
        let tweak = u64::from(place) * 2;
        label = hash(label, 0, tweak).xor(hash(SECOND, 0, tweak + 1));
    }
    label
}
