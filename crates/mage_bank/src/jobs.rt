// Instructions over frames.
ghost use Rattle.std.specs.Prelude.{◌≡◌, ◌≤◌, ◌<◌, length, take, slice_index_or, IsTrue, OnOk, OnErr};
ghost use Rattle.mage_instr.specs.Opcodes.{WidthOk, width_of_arg, mux_width};
ghost use Rattle.mage_driver.specs.declared.standing.Standing.TheVariants as standing;
ghost use Rattle.mage_driver.specs.Circuits.{Leaves};
ghost use Rattle.mage_circuit.specs.Results.{is_made, wires_of_result};
ghost use Rattle.mage_steps.specs.Engines.{no_spot, operand, with_result};
ghost use Rattle.mage_bank.specs.Bank.{contents, bank_of, lengths_of};
ghost use Rattle.mage_bank.specs.Jobs.{JobLies, wires_of_arg, circuit_on};

use crate::values::{load, store};
use mage_circuit::{Scratch, exec};
use mage_driver::Driver;
use mage_instr::{DriverFault, Job, Op, Spot, arity, result_width};

/// Does an instruction: reads the values of its arguments from the frames, makes its circuit, and writes its result, where
/// it has one. After a fault, which is the driver's, the frames are as they were.
pub fn compute<D: Driver>(
    driver: &mut D,
    job: &Job,
    frames: &mut [Vec<u8>],
    scratch: &mut Scratch<D>,
) -> Result<(), DriverFault>
    requires running { (D.tells driver.old).standing ≡ standing.Running }
    requires width { WidthOk job.now.op job.now.width job.now.imm }
    requires made { IsTrue (is_made job.now.op) }
    requires lies { JobLies D.WIRE_BYTES (contents frames.old) job.now }
    ensures circuit { Leaves D.rules (circuit_on D.rules job.now (bank_of (contents frames.old)))
        (D.tells driver.old) (D.tells driver.new)
        (λ _. take (wires_of_result job.now.op job.now.width) scratch.new.result.items) result }
    ensures stored { OnOk result (bank_of (contents frames.new)
        ≡ with_result D.rules job.now (bank_of (contents frames.old))
        (take (wires_of_result job.now.op job.now.width) scratch.new.result.items)) }
    ensures told { OnOk result (IsTrue (D.tells driver.old).told
        → bank_of (contents frames.new)
        ≡ with_result D.rules job.now (bank_of (contents frames.old))
        (circuit_on D.rules job.now (bank_of (contents frames.old))
        (D.tells driver.old).state).wires) }
    ensures kept { OnErr result (frames.new ≡ frames.old) }
    ensures lengths { lengths_of (contents frames.new) ≡ lengths_of (contents frames.old) }
{
    load_arguments(driver, job, frames, scratch);
    exec(driver, job.op, job.width, job.imm, scratch)?;
    store_result(driver, job, scratch.result.as_slice(), frames);
    Ok(())
}

// Reads the values of an instruction's arguments.
fn load_arguments<D: Driver>(driver: &D, job: &Job, frames: &[Vec<u8>], scratch: &mut Scratch<D>)
    requires width { WidthOk job.now.op job.now.width job.now.imm }
    requires lies { JobLies D.WIRE_BYTES (contents frames.now) job.now }
    ensures first { take (wires_of_arg job.now.op job.now.width job.now.imm 0)
        scratch.new.first.items
        ≡ operand D.rules job.now (bank_of (contents frames.now)) 0 }
    ensures second { take (wires_of_arg job.now.op job.now.width job.now.imm 1)
        scratch.new.second.items
        ≡ operand D.rules job.now (bank_of (contents frames.now)) 1 }
    ensures third { take (wires_of_arg job.now.op job.now.width job.now.imm 2)
        scratch.new.third.items
        ≡ operand D.rules job.now (bank_of (contents frames.now)) 2 }
{
    load_argument(driver, job, 0, frames, &mut scratch.first);
    load_argument(driver, job, 1, frames, &mut scratch.second);
    load_argument(driver, job, 2, frames, &mut scratch.third);
}

// Reads the value of argument k of an instruction, where it has one.
fn load_argument<D: Driver>(
    driver: &D,
    job: &Job,
    k: usize,
    frames: &[Vec<u8>],
    into: &mut Vec<D::Wire>,
)
    requires k { k < 3 }
    requires width { WidthOk job.now.op job.now.width job.now.imm }
    requires lies { JobLies D.WIRE_BYTES (contents frames.now) job.now }
    requires room { length into.old.items ≡ 128 }
    ensures wires { take (wires_of_arg job.now.op job.now.width job.now.imm k) into.new.items
        ≡ operand D.rules job.now (bank_of (contents frames.now)) k }
    ensures length { length into.new.items ≡ 128 }
{
    load_operand(driver, job, k, frames, into.as_mut_slice());
}

// The same into a slice.
fn load_operand<D: Driver>(
    driver: &D,
    job: &Job,
    k: usize,
    frames: &[Vec<u8>],
    into: &mut [D::Wire],
)
    requires k { k < 3 }
    requires width { WidthOk job.now.op job.now.width job.now.imm }
    requires lies { JobLies D.WIRE_BYTES (contents frames.now) job.now }
    requires room { length into.old ≡ 128 }
    ensures { take (wires_of_arg job.now.op job.now.width job.now.imm k) into.new
        ≡ operand D.rules job.now (bank_of (contents frames.now)) k }
{
    if usize::from(arity(job.op)) <= k {
        return;
    }
    let width = arg_width(job, k);
    load(driver, frames, spot_of(*job, k), &mut into[..width]);
}

// Where argument k of an instruction stands.
fn spot_of(job: Job, k: usize) -> Spot
    requires { k < 3 }
    ensures { result ≡ slice_index_or job.args k no_spot }
{
    job.args[k]
}

// How many wires argument k of an instruction has.
fn arg_width(job: &Job, k: usize) -> usize
    requires width { WidthOk job.now.op job.now.width job.now.imm }
    ensures width { result ≡ width_of_arg job.now.op job.now.width job.now.imm k }
    ensures few { result ≤ 128 }
{
    match job.op {
        Op::Mux => mux_width(usize::from(job.width), k),
        Op::Resize => job.imm as usize,
        _ => usize::from(job.width),
    }
}

// How many wires argument k of a choice has: its condition has one.
fn mux_width(width: usize, k: usize) -> usize
    ensures { result ≡ mux_width width k }
{
    if k == 0 { 1 } else { width }
}

// Writes the result of an instruction, where it has one.
fn store_result<D: Driver>(driver: &D, job: &Job, wires: &[D::Wire], frames: &mut [Vec<u8>])
    requires width { WidthOk job.now.op job.now.width job.now.imm }
    requires lies { JobLies D.WIRE_BYTES (contents frames.old) job.now }
    requires room { length wires.now ≡ 128 }
    ensures bank { bank_of (contents frames.new)
        ≡ with_result D.rules job.now (bank_of (contents frames.old))
        (take (wires_of_result job.now.op job.now.width) wires.now) }
    ensures lengths { lengths_of (contents frames.new) ≡ lengths_of (contents frames.old) }
{
    match result_width(job.op, job.width) {
        Some(width) => store(driver, &wires[..usize::from(width)], frames, job.out),
        None => {}
    }
}
