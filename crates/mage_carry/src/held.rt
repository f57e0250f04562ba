// What a frame, a slot or a page holds: variables by the offset of their first wire.
ghost use Rattle.std.specs.Prelude.{◌≡◌, ◌≤◌, ◌<◌, ℕ, IfOk, OnOk, nat_eq, if◌then◌else◌};
ghost use Rattle.mage_instr.specs.Opcodes.{width_of_result};
ghost use Rattle.mage_carry.specs.State.{nothing, has};
ghost use Rattle.mage_carry.specs.Steps.{width_of, overlap, unless_overlaps, freed, put, placed};
ghost use Rattle.mage_carry.specs.Views.{content_of};

use mage_base::Memory;
use mage_instr::{Instr, Op};
use std::alloc::Global;
use std::collections::BTreeMap;

/// The variables that stand in a page, by offset. A variable is the index of the instruction that defined it.
#[derive(Drop)]
pub(crate) struct Held {
    pub variables: BTreeMap<u32, u32>,
}

// The width of a result; an opcode without one is taken as having one of its own width.
fn width_of_result(op: Op, width: u8) -> u8
    ensures { result ≡ width_of_result op width }
{
    match op {
        Op::Eq | Op::Lt => 1,
        _ => width,
    }
}

// The width of a variable, or 0 where no instruction defines it.
fn width_of(instrs: &[Instr], variable: u32) -> u8
    ensures { result ≡ width_of instrs.now variable }
{
    match instrs.get(variable as usize) {
        Some(i) => width_of_result(i.op, i.width),
        None => 0,
    }
}

// Whether `width` wires from `offset` on and `count` wires from `other` on have one in common.
fn overlap(offset: u32, width: u8, other: u16, count: u8) -> bool
    requires { offset < 4294967040 }
    ensures { result ≡ overlap offset width other count }
{
    offset < u32::from(other) + u32::from(count) && u32::from(other) < offset + u32::from(width)
}

impl Held {
    // Nothing stands there.
    pub(crate) fn none(alloc: Global) -> Held
        ensures { content_of result ≡ nothing }
    {
        Held {
            variables: BTreeMap::new(alloc),
        }
    }

    // A copy of its own.
    pub(crate) fn copy(&self) -> Result<Held, Memory>
        ensures { IfOk result (λ copy. content_of copy ≡ content_of self.now) }
    {
        let variables = self.variables.clone()?;
        Ok(Held { variables })
    }

    // Whether the variable stands at an offset.
    pub(crate) fn has(&self, offset: u16, variable: u32) -> bool
        ensures { result ≡ has (nat_eq variable) (content_of self.now offset) }
    {
        match self.variables.get(&u32::from(offset)) {
            Some(other) => variable == *other,
            None => false,
        }
    }

    // The variable at `offset` goes where it overlaps `count` wires from `other` on.
    fn free_at(&mut self, instrs: &[Instr], offset: u32, other: u16, count: u8)
        requires { offset < 4294967040 }
        ensures { (q : ℕ) → content_of self.new q ≡ (if nat_eq offset q
            then unless_overlaps instrs.now other count offset (content_of self.old offset)
            else content_of self.old q) }
    {
        let Some(variable) = self.variables.get(&offset).copied() else {
            return;
        };
        if overlap(offset, width_of(instrs, variable), other, count) {
            let _ = self.variables.remove(&offset);
        }
    }

    // Each variable that overlaps `count` wires from `other` on goes.
    fn free(&mut self, instrs: &[Instr], other: u16, count: u8)
        requires { (v : ℕ) → width_of instrs.now v ≤ 128 }
        ensures { content_of self.new ≡ freed instrs.now other count (content_of self.old) }
    {
        // no variable is wider than 128 wires
        let first = u32::from(other.saturating_sub(127));
        for offset in first..u32::from(other) + u32::from(count) {
            self.free_at(instrs, offset, other, count);
        }
    }

    // A variable takes the place of those that it overlaps.
    pub(crate) fn place(
        &mut self,
        instrs: &[Instr],
        offset: u16,
        width: u8,
        variable: u32,
    ) -> Result<(), Memory>
        requires { (v : ℕ) → width_of instrs.now v ≤ 128 }
        ensures { OnOk result (content_of self.new
            ≡ placed instrs.now offset width variable (content_of self.old)) }
    {
        self.free(instrs, offset, width);
        self.variables.insert(u32::from(offset), variable)?;
        Ok(())
    }
}
