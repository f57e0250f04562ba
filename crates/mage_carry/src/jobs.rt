// An instruction is done: it is the next one, and finds its arguments.
ghost use Rattle.std.specs.Prelude.{◌≡◌, ◌≤◌, ◌<◌, ◌+◌, ℕ, IfOk, length, map, slice_index_or, nat_le};
ghost use Rattle.mage_instr.specs.Opcodes.{width_of_arg, width_of_result};
ghost use Rattle.mage_instr.specs.Sound.{arg_of, IsSound};
ghost use Rattle.mage_carry.specs.Opcode.{same_op};
ghost use Rattle.mage_carry.specs.Steps.{width_of, no_spot, is_job_of, is_within, stands_at, finds, finds_all, result_at, result_put, do_job};
ghost use Rattle.mage_carry.specs.Views.{content_of, state_of, Goes};

use crate::held::Held;
use crate::walk::Walk;
use mage_base::Memory;
use mage_instr::{Instr, Job, Op, Spot, arity, result_width};

// Whether two opcodes are the same.
fn same_op(a: Op, b: Op) -> bool
    ensures { result ≡ same_op a b }
{
    a as u8 == b as u8
}

// Whether the job is the instruction, by opcode, width and immediate.
fn is_job_of(i: Instr, job: Job) -> bool
    ensures { result ≡ is_job_of i job }
{
    same_op(job.op, i.op) && job.width == i.width && job.imm == i.imm
}

// The width of argument k.
fn width_of_arg(i: Instr, k: u8) -> u64
    ensures { result ≡ width_of_arg i.op i.width i.imm k }
{
    match i.op {
        Op::Mux if k == 0 => 1,
        Op::Resize => i.imm,
        _ => u64::from(i.width),
    }
}

// Whether a variable of this width at the spot lies in the page, which has so many wires.
fn is_within(wires: u32, width: u64, spot: Spot) -> bool
    requires { width ≤ 128 }
    ensures { result ≡ is_within wires width spot }
{
    u64::from(spot.offset) + width <= u64::from(wires)
}

// Whether the variable stands at the spot.
fn stands_at(frames: &[Held], variable: u32, spot: Spot) -> bool
    ensures { result ≡ stands_at (map content_of frames.now) variable spot }
{
    match frames.get(usize::from(spot.frame)) {
        Some(held) => held.has(spot.offset, variable),
        None => false,
    }
}

// Whether argument k of the instruction, if it has one, stands at the spot that the job names.
fn finds(wires: u32, frames: &[Held], i: Instr, job: Job, k: u8) -> bool
    requires k { k < 3 }
    requires width { width_of_arg i.op i.width i.imm k ≤ 128 }
    ensures { result ≡ finds wires (map content_of frames.now) i job k }
{
    let spot = job.args[usize::from(k)];
    arity(i.op) <= k
        || (is_within(wires, width_of_arg(i, k), spot)
            && stands_at(frames, i.args[usize::from(k)], spot))
}

// Whether each argument does.
fn finds_all(wires: u32, frames: &[Held], i: Instr, job: Job) -> bool
    requires widths { (k : ℕ) → width_of_arg i.op i.width i.imm k ≤ 128 }
    ensures { result ≡ finds_all wires (map content_of frames.now) i job }
{
    finds(wires, frames, i, job, 0)
        && finds(wires, frames, i, job, 1)
        && finds(wires, frames, i, job, 2)
}

impl Walk {
    // A result of this width is put at a spot.
    fn result_at(
        &mut self,
        instrs: &[Instr],
        wires: u32,
        width: u8,
        spot: Spot,
    ) -> Result<bool, Memory>
        requires width { width ≤ 128 }
        requires widths { (v : ℕ) → width_of instrs.now v ≤ 128 }
        ensures goes { IfOk result (λ goes. Goes goes (state_of self.new)
            (result_at instrs.now wires width spot (state_of self.old))) }
        ensures next { self.new.next ≡ self.old.next }
    {
        if usize::from(spot.frame) >= self.frames.len()
            || !is_within(wires, u64::from(width), spot)
        {
            return Ok(false);
        }
        let variable = self.next;
        let held = &mut self.frames[usize::from(spot.frame)];
        held.place(instrs, spot.offset, width, variable)?;
        Ok(true)
    }

    // The result of the instruction, if it has one, is put at the spot that the job names.
    fn result_put(
        &mut self,
        instrs: &[Instr],
        wires: u32,
        i: Instr,
        job: Job,
    ) -> Result<bool, Memory>
        requires width { width_of_result i.op i.width ≤ 128 }
        requires widths { (v : ℕ) → width_of instrs.now v ≤ 128 }
        ensures goes { IfOk result (λ goes. Goes goes (state_of self.new)
            (result_put instrs.now wires i job (state_of self.old))) }
        ensures next { self.new.next ≡ self.old.next }
    {
        match result_width(i.op, i.width) {
            Some(width) => self.result_at(instrs, wires, width, job.out),
            None => Ok(true),
        }
    }

    // The next instruction is done.
    pub(crate) fn do_job(&mut self, instrs: &[Instr], wires: u32, job: Job) -> Result<bool, Memory>
        requires sound { IsSound instrs.now }
        ensures { IfOk result (λ goes. Goes goes (state_of self.new)
            (do_job instrs.now wires job (state_of self.old))) }
    {
        let Some(i) = instrs.get(self.next as usize).copied() else {
            return Ok(false);
        };
        if !is_job_of(i, job) || !finds_all(wires, self.frames.as_slice(), i, job) {
            return Ok(false);
        }
        let goes = self.result_put(instrs, wires, i, job)?;
        self.next += 1;
        Ok(goes)
    }
}
