// What the words ask for, and what comes of it.
ghost use Rattle.std.specs.Prelude.{◌≡◌, IsTrue};
ghost use Rattle.mage_instr.specs.Opcodes.{WidthOk};
ghost use Rattle.mage_driver.specs.declared.standing.Standing.TheVariants as standing;
ghost use Rattle.mage_circuit.specs.Results.{is_made};

use mage_base::Memory;
use mage_circuit::{Scratch, exec, is_made};
use mage_instr::{Op, width_ok};
use mage_plain::PlainDriver;
use std::alloc::{AllocError, Global};

/// Why nothing is printed.
#[derive(Clone, Copy)]
pub enum Trouble {
    Words,
    Memory,
    Print,
}

impl From<AllocError> for Trouble {
    fn from(_: AllocError) -> Self {
        Trouble::Memory
    }
}

impl From<Memory> for Trouble {
    fn from(_: Memory) -> Self {
        Trouble::Memory
    }
}

/// Which instruction is made, and how often.
#[derive(Clone, Copy)]
pub struct Task {
    pub op: Op,
    pub width: u8,
    pub count: u32,
}

// The words NAME WIDTH COUNT.
pub fn task_of(words: &[String]) -> Result<Task, Trouble> {
    let [name, width, count] = words else {
        return Err(Trouble::Words);
    };
    let op = op_of(name.as_str())?;
    let width = width.as_str().parse::<u8>().map_err(|_| Trouble::Words)?;
    let count = count.as_str().parse::<u32>().map_err(|_| Trouble::Words)?;
    Ok(Task { op, width, count })
}

fn op_of(word: &str) -> Result<Op, Trouble> {
    match word {
        "add" => Ok(Op::Add),
        "sub" => Ok(Op::Sub),
        "mul" => Ok(Op::Mul),
        "and" => Ok(Op::And),
        "or" => Ok(Op::Or),
        "xor" => Ok(Op::Xor),
        "not" => Ok(Op::Not),
        "eq" => Ok(Op::Eq),
        "lt" => Ok(Op::Lt),
        "mux" => Ok(Op::Mux),
        "shl" => Ok(Op::Shl),
        "shr" => Ok(Op::Shr),
        "div" => Ok(Op::Div),
        "rem" => Ok(Op::Rem),
        "count" => Ok(Op::Count),
        "min" => Ok(Op::Min),
        "max" => Ok(Op::Max),
        _ => Err(Trouble::Words),
    }
}

/// How many ones the last result of the task has.
pub fn ones_of(alloc: Global, task: Task) -> Result<u8, Trouble> {
    let Task { op, width, count } = task;
    if !is_made(op) || !width_ok(op, width, 0) {
        return Err(Trouble::Words);
    }
    let mut driver = PlainDriver::make(alloc, Vec::new(alloc), Vec::new(alloc), 0)?;
    let mut scratch = Scratch::make(alloc, &driver)?;
    for bit in 0..128 {
        scratch.put(0, bit, bit % 3 == 0);
        scratch.put(1, bit, bit % 5 < 2);
        scratch.put(2, bit, bit % 7 < 3);
    }
    repeat(&mut driver, op, width, count, &mut scratch)?;
    let mut ones: u8 = 0;
    for bit in 0..width {
        ones = ones.saturating_add(u8::from(scratch.get(bit)));
    }
    Ok(ones)
}

// Makes an instruction so many times, each with a bit of the result before it in its first argument.
fn repeat(
    driver: &mut PlainDriver,
    op: Op,
    width: u8,
    count: u32,
    scratch: &mut Scratch<PlainDriver>,
) -> Result<(), Trouble>
    requires running { driver.old.standing ≡ standing.Running }
    requires width { WidthOk op width 0 }
    requires made { IsTrue (is_made op) }
{
    for _turn in 0..count {
        match exec(driver, op, width, 0, scratch) {
            Ok(()) => scratch.put(0, 0, scratch.get(0)),
            Err(_) => return Err(Trouble::Words),
        }
    }
    Ok(())
}
