// The last use of each value.
ghost use Rattle.std.specs.Prelude.{◌≡◌, ◌<◌, ℕ, length, nat_eq, slice_index, if◌then◌else◌, IfOk};
ghost use Rattle.std.specs.List.{list_any};
ghost use Rattle.mage_instr.specs.Opcodes.{arity_of};
ghost use Rattle.mage_instr.specs.Sound.{IsSound, arg_of};
ghost use Rattle.mage_place.specs.Live.{args_of, IsLastUse};

use mage_base::Memory;
use mage_instr::{Instr, arity};
use std::alloc::Global;

// For each value the last instruction that takes it, or the one that defines it where none does.
pub fn last_uses(alloc: Global, instrs: &[Instr]) -> Result<Vec<u32>, Memory>
    requires { IsSound instrs.now }
    ensures count { IfOk result (λ last. length last.items ≡ length instrs.now) }
    ensures last { IfOk result (λ last. (v : ℕ) → v < length instrs.now
        → IsLastUse instrs.now (length instrs.now) v (slice_index last.items v)) }
{
    let mut last = Vec::with_capacity(alloc, instrs.len())?;
    for (t, instr) in instrs.iter().enumerate() {
        last.push(t as u32)?;
        note(&mut last, *instr, t as u32);
    }
    Ok(last)
}

// The arguments of an instruction are used at t.
fn note(last: &mut [u32], instr: Instr, t: u32)
    requires { (k : ℕ) → k < arity_of instr.op → arg_of instr k < length last.old }
    ensures count { length last.new ≡ length last.old }
    ensures values { (v : ℕ) → slice_index last.new v
        ≡ (if list_any (nat_eq v) (args_of instr) then t else slice_index last.old v) }
{
    for k in 0..usize::from(arity(instr.op)) {
        last[instr.args[k] as usize] = t;
    }
}
