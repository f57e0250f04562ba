// Whether a memory program carries a program, worker by worker.
ghost use Rattle.std.specs.Prelude.{◌≡◌, ◌≤◌, ◌<◌, IfOk, length};
ghost use Rattle.std.specs.List.{All};
ghost use Rattle.mage_instr.specs.Sound.{IsSound};
ghost use Rattle.mage_carry.specs.State.{is_idle};
ghost use Rattle.mage_carry.specs.Steps.{step_of};
ghost use Rattle.mage_carry.specs.Carrying.{store_of, is_over, break_of, carries_of};
ghost use Rattle.mage_carry.specs.Views.{state_of, Goes};

use crate::Carry;
use crate::walk::{Walk, are_idle};
use mage_base::Memory;
use mage_instr::{Directive, Instr, Limits, MemProgram, Program};
use std::alloc::Global;

/// Whether a memory program carries a program.
///
/// It does where it has a part for each of the program's workers, and the directives of each part keep to the rules
/// below and do all instructions of the worker, in their order. Each frame and each page of the worker's store holds
/// variables at offsets, from 0 below the wires of a page; a variable is the result of one instruction, and takes as many
/// wires as it is wide. At first nothing stands anywhere, and each slot is idle.
///
/// - `Fresh`: nothing stands in the frame any more.
/// - `IssueIn`: the slot is idle, no slot reads or writes the store page, and a write of it has finished. The slot reads it.
/// - `FinishIn`: the slot reads a store page. The frame holds what that page holds, and the slot is idle.
/// - `IssueOut`: the slot is idle, and no slot reads or writes the store page. The slot writes what the frame holds.
/// - `FinishOut`: the slot writes a store page. That page holds what the slot wrote, and the slot is idle.
/// - `Do`: the job has the opcode, the width and the immediate of the worker's next instruction, and each argument of the
///   instruction stands at the spot that the job names. The result stands at its spot, and what it overlaps is gone. The
///   wires of arguments and result are within the page.
///
/// A frame is below `frames` and a slot below `buffer` of the memory program's limits, and a store page is below the
/// worker's number in `stores`, which is 0 where it has none. The page that `Fresh` names doesn't matter. At the end no
/// instruction is left, and each slot is idle.
///
/// `No` comes with the lowest worker whose part breaks a rule, and with the first directive that does; or with the number
/// of its directives, where something is left over at the end. Where the numbers of workers differ it comes with 0 and 0.
/// `Memory` may come at any time.
///
/// The program's instructions can run, and it has at most 16 workers. A part's directives are as many as 32 bits can count.
pub fn carries(alloc: Global, program: &Program, plan: &MemProgram) -> Result<Carry, Memory>
    requires sound { All IsSound program.now.workers }
    requires few { length program.now.workers ≤ 16 }
    requires parts { All (λ part. length part < 4294967296) plan.now.workers }
    ensures { IfOk result (λ carry. carry ≡ carries_of program.now plan.now) }
{
    if program.workers.len() != plan.workers.len() {
        return Ok(Carry::No {
            worker: 0,
            directive: 0,
        });
    }
    for worker in 0..plan.workers.len() {
        let instrs = program.workers.as_slice()[worker].as_slice();
        let part = plan.workers.as_slice()[worker].as_slice();
        let store = store_of(plan.stores.as_slice(), worker);
        if let Some(directive) = first_break(alloc, plan.limits, store, instrs, part)? {
            let worker = worker as u16;
            return Ok(Carry::No { worker, directive });
        }
    }
    Ok(Carry::Yes)
}

// How many pages the store of a worker has.
fn store_of(stores: &[u32], worker: usize) -> u32
    ensures { result ≡ store_of stores.now worker }
{
    stores.get(worker).copied().unwrap_or(0)
}

// The first directive of a worker that breaks the rules, or their number where something is left over at the end.
fn first_break(
    alloc: Global,
    limits: Limits,
    store: u32,
    instrs: &[Instr],
    part: &[Directive],
) -> Result<Option<u32>, Memory>
    requires sound { IsSound instrs.now }
    requires count { length part.now < 4294967296 }
    ensures { IfOk result (λ place. place ≡ break_of limits store instrs.now part.now) }
{
    let mut walk = Walk::start(alloc, limits.frames, limits.buffer)?;
    for d in 0..part.len() {
        if !walk.step(alloc, instrs, limits.page, store, part[d])? {
            return Ok(Some(d as u32));
        }
    }
    if walk.is_over(instrs) {
        Ok(None)
    } else {
        Ok(Some(part.len() as u32))
    }
}

impl Walk {
    // A directive is done, where it keeps to the rules.
    fn step(
        &mut self,
        alloc: Global,
        instrs: &[Instr],
        wires: u32,
        store: u32,
        directive: Directive,
    ) -> Result<bool, Memory>
        requires { IsSound instrs.now }
        ensures { IfOk result (λ goes. Goes goes (state_of self.new)
            (step_of instrs.now wires store (state_of self.old) directive)) }
    {
        match directive {
            Directive::Fresh { frame, .. } => Ok(self.fresh(alloc, frame)),
            Directive::IssueIn { slot, page } => Ok(self.issue_in(store, slot, page)),
            Directive::FinishIn { slot, frame } => self.finish_in(alloc, slot, frame),
            Directive::IssueOut { slot, frame, page } => self.issue_out(store, slot, frame, page),
            Directive::FinishOut { slot } => self.finish_out(slot),
            Directive::Do(job) => self.do_job(instrs, wires, job),
        }
    }

    // Whether the instructions are used up, and each slot is idle.
    fn is_over(&self, instrs: &[Instr]) -> bool
        ensures { result ≡ is_over instrs.now (state_of self.now) }
    {
        self.next as usize == instrs.len() && are_idle(self.slots.as_slice())
    }
}

#[cfg(test)]
mod tests;
