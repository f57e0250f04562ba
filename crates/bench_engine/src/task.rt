// What the words ask for, and what comes of it.
use crate::alone::{garbled_alone, plain_alone};
use crate::failing::Trouble;
use crate::machine::{garbled_machine, plain_machine};
use crate::plan::part_of;
use mage_instr::Op;
use std::alloc::Global;

/// The driver.
#[derive(Clone, Copy)]
pub enum Over {
    Plain,
    Garbled,
}

/// What is done: the program alone is made and verified, a machine goes through it, or its instructions are made alone.
#[derive(Clone, Copy)]
pub enum Way {
    Verify,
    Machine,
    Exec,
}

/// Which instructions: additions, multiplications, or additions between which no page goes out or comes in.
#[derive(Clone, Copy)]
pub enum Name {
    Add,
    Mul,
    Stay,
}

#[derive(Clone, Copy)]
pub struct Task {
    pub over: Over,
    pub way: Way,
    pub name: Name,
    pub blocks: u32,
}

/// The words DRIVER WAY NAME BLOCKS.
pub fn task_of(words: &[String]) -> Result<Task, Trouble> {
    let [over, way, name, blocks] = words else {
        return Err(Trouble::Words);
    };
    Ok(Task {
        over: over_of(over.as_str())?,
        way: way_of(way.as_str())?,
        name: name_of(name.as_str())?,
        blocks: blocks.as_str().parse::<u32>().map_err(|_| Trouble::Words)?,
    })
}

fn over_of(word: &str) -> Result<Over, Trouble> {
    match word {
        "plain" => Ok(Over::Plain),
        "garble" => Ok(Over::Garbled),
        _ => Err(Trouble::Words),
    }
}

fn way_of(word: &str) -> Result<Way, Trouble> {
    match word {
        "verify" => Ok(Way::Verify),
        "machine" => Ok(Way::Machine),
        "exec" => Ok(Way::Exec),
        _ => Err(Trouble::Words),
    }
}

fn name_of(word: &str) -> Result<Name, Trouble> {
    match word {
        "add" => Ok(Name::Add),
        "mul" => Ok(Name::Mul),
        "stay" => Ok(Name::Stay),
        _ => Err(Trouble::Words),
    }
}

/// The value that is put out in plain by a machine, and else 0.
pub fn result_of(alloc: Global, task: Task) -> Result<u128, Trouble> {
    match task.way {
        Way::Verify => {
            let part = part_of(alloc, task.name, task.blocks)?;
            Ok(u128::from(part.store_pages()))
        }
        Way::Machine => by_machine(alloc, task),
        Way::Exec => by_exec(alloc, task),
    }
}

fn by_machine(alloc: Global, task: Task) -> Result<u128, Trouble> {
    let part = part_of(alloc, task.name, task.blocks)?;
    match task.over {
        Over::Plain => plain_machine(alloc, part),
        Over::Garbled => garbled_machine(alloc, part, stream_bytes(task)),
    }
}

fn by_exec(alloc: Global, task: Task) -> Result<u128, Trouble> {
    let op = match task.name {
        Name::Add | Name::Stay => Op::Add,
        Name::Mul => Op::Mul,
    };
    let count = task.blocks.saturating_mul(16);
    match task.over {
        Over::Plain => plain_alone(alloc, op, count),
        Over::Garbled => garbled_alone(alloc, op, count, stream_bytes(task)),
    }
}

// Room for 32 bytes an AND, and for what stands beside them.
fn stream_bytes(task: Task) -> u64 {
    let ands = match task.name {
        Name::Add | Name::Stay => 31,
        Name::Mul => 993,
    };
    u64::from(task.blocks) * 16 * 32 * ands + 4096
}
