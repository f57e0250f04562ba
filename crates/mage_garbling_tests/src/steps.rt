// Instructions one after the other, each made by its circuit over a driver, with their wires in one memory.
ghost use Rattle.std.specs.Prelude.{◌≡◌, OnOk};
ghost use Rattle.mage_driver.specs.declared.standing.Standing.TheVariants as standing;

use mage_base::Memory;
use mage_circuit::{Scratch, exec, is_made};
use mage_driver::Driver;
use mage_instr::{DriverFault, Op, Party, width_ok};
use mage_label::Label;
use std::alloc::Global;

/// An instruction, its width and immediate, where its result goes, and where its first two arguments are.
pub type Step = (Op, u8, u64, u8, u8, u8);

const BLANK: Label = Label { bytes: [0; 16] };

// Takes an input of a party: that of number 1 is the evaluator.
fn take<D: Driver<Wire = Label>>(
    driver: &mut D,
    memory: &mut [Label; 512],
    party: u64,
    width: u8,
    out: u8,
) -> Result<(), DriverFault>
    requires { (D.tells driver.old).standing ≡ standing.Running }
    ensures { OnOk result ((D.tells driver.new).standing ≡ standing.Running) }
{
    let from = usize::from(out);
    let to = from + usize::from(width.min(128));
    let party = if party == 1 {
        Party::Evaluator
    } else {
        Party::Garbler
    };
    driver.input(party, &mut memory[from..to])
}

// Puts out a value.
fn put<D: Driver<Wire = Label>>(
    driver: &mut D,
    memory: &[Label; 512],
    width: u8,
    place: u8,
) -> Result<(), DriverFault>
    requires { (D.tells driver.old).standing ≡ standing.Running }
    ensures { OnOk result ((D.tells driver.new).standing ≡ standing.Running) }
{
    let from = usize::from(place);
    let to = from + usize::from(width.min(128));
    driver.output(&memory[from..to])
}

// Writes 128 wires as an argument.
fn load<D: Driver<Wire = Label>>(
    scratch: &mut Scratch<D>,
    memory: &[Label; 512],
    arg: bool,
    place: u8,
) {
    for bit in 0..128 {
        scratch.put(
            u8::from(arg),
            bit,
            memory[usize::from(place) + usize::from(bit)],
        );
    }
}

// Reads the wires of a result.
fn store<D: Driver<Wire = Label>>(
    scratch: &Scratch<D>,
    memory: &mut [Label; 512],
    width: u8,
    place: u8,
) {
    for bit in 0..width.min(128) {
        memory[usize::from(place) + usize::from(bit)] = scratch.get(bit);
    }
}

// Makes the circuit of an instruction; nothing where it has none.
fn make<D: Driver<Wire = Label>>(
    driver: &mut D,
    scratch: &mut Scratch<D>,
    op: Op,
    width: u8,
    imm: u64,
) -> Result<(), DriverFault>
    requires { (D.tells driver.old).standing ≡ standing.Running }
    ensures { OnOk result ((D.tells driver.new).standing ≡ standing.Running) }
{
    if !is_made(op) || !width_ok(op, width, imm) {
        return Ok(());
    }
    exec(driver, op, width, imm, scratch)
}

fn compute<D: Driver<Wire = Label>>(
    driver: &mut D,
    scratch: &mut Scratch<D>,
    memory: &mut [Label; 512],
    step: Step,
) -> Result<(), DriverFault>
    requires { (D.tells driver.old).standing ≡ standing.Running }
    ensures { OnOk result ((D.tells driver.new).standing ≡ standing.Running) }
{
    let (op, width, imm, out, first, second) = step;
    load(scratch, memory, false, first);
    load(scratch, memory, true, second);
    make(driver, scratch, op, width, imm)?;
    let wires = match op {
        Op::Eq | Op::Lt => 1,
        _ => width,
    };
    store(scratch, memory, wires, out);
    Ok(())
}

fn make_step<D: Driver<Wire = Label>>(
    driver: &mut D,
    scratch: &mut Scratch<D>,
    memory: &mut [Label; 512],
    step: Step,
) -> Result<(), DriverFault>
    requires { (D.tells driver.old).standing ≡ standing.Running }
    ensures { OnOk result ((D.tells driver.new).standing ≡ standing.Running) }
{
    let (op, width, imm, out, first, _) = step;
    match op {
        Op::Input => take(driver, memory, imm, width, out),
        Op::Output => put(driver, memory, width, first),
        _ => compute(driver, scratch, memory, step),
    }
}

fn make_steps<D: Driver<Wire = Label>>(
    driver: &mut D,
    scratch: &mut Scratch<D>,
    steps: &[Step],
) -> Result<(), DriverFault>
    requires { (D.tells driver.old).standing ≡ standing.Running }
    ensures { OnOk result ((D.tells driver.new).standing ≡ standing.Running) }
{
    let mut memory = [BLANK; 512];
    for step in steps {
        make_step(driver, scratch, &mut memory, *step)?;
    }
    Ok(())
}

/// Makes the instructions, and finishes.
pub fn run_steps<D: Driver<Wire = Label>>(
    alloc: Global,
    driver: &mut D,
    steps: &[Step],
) -> Result<Result<(), DriverFault>, Memory>
    requires { (D.tells driver.old).standing ≡ standing.Running }
{
    let mut scratch = Scratch::make(alloc, driver)?;
    match make_steps(driver, &mut scratch, steps) {
        Ok(()) => Ok(driver.finish()),
        Err(fault) => Ok(Err(fault)),
    }
}
