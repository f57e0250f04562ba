// The widths of the input values of a program.
ghost use Rattle.std.specs.Prelude.{◌≡◌, ◌≤◌, ◌++◌, ◌∷◌, List, All, map, IfOk, OnOk};
ghost use Rattle.mage_instr.specs.declared.instr.Instr.{Instr};
ghost use Rattle.mage_instr.specs.Opcodes.{IsWidth};
ghost use Rattle.mage_instr.specs.Sound.{IsSound};
ghost use Rattle.mage_instr.specs.Inputs.{imm_of, is_input_of, widths_in, input_widths_of};

use crate::{Instr, Op, Party, Program};
use mage_base::Memory;
use std::alloc::Global;

// The immediate of an instruction that takes a value of this party.
fn imm_of(party: Party) -> u64
    ensures { result ≡ imm_of party }
{
    match party {
        Party::Garbler => 0,
        Party::Evaluator => 1,
    }
}

// Whether an instruction takes a value of this party.
fn is_input_of(instr: &Instr, whose: Party) -> bool
    ensures { result ≡ is_input_of whose instr.now }
{
    matches!(instr.op, Op::Input) && instr.imm == imm_of(whose)
}

// The widths of a party's input values among these instructions, in order.
fn widths_of(alloc: Global, instrs: &[Instr], whose: Party) -> Result<Vec<u8>, Memory>
    requires { IsSound instrs.now }
    ensures widths { IfOk result (λ own. own.items ≡ widths_in whose instrs.now) }
    ensures in_range { IfOk result (λ own. All IsWidth own.items) }
{
    let mut own = Vec::new(alloc);
    for instr in instrs {
        add_width(&mut own, instr, whose)?;
    }
    Ok(own)
}

// The width of an instruction more, where it takes a value of the party.
fn add_width(own: &mut Vec<u8>, instr: &Instr, whose: Party) -> Result<(), Memory>
    ensures in_front { (others : List Instr) → OnOk result (own.new.items ++ widths_in whose others
        ≡ own.old.items ++ widths_in whose (instr.now ∷ others)) }
    ensures in_range { OnOk result
        (IsWidth instr.now.width → All IsWidth own.old.items → All IsWidth own.new.items) }
{
    if is_input_of(instr, whose) {
        own.push(instr.width)?;
    }
    Ok(())
}

/// The widths of a party's input values, in order, for each worker: those of its `Input` instructions. Each is 1 to 128.
/// `Memory` where there is none for the list.
pub fn input_widths(alloc: Global, program: &Program, party: Party) -> Result<Vec<Vec<u8>>, Memory>
    requires { All IsSound program.now.workers }
    ensures widths { IfOk result (λ widths.
        map (λ own. own.items) widths.items ≡ input_widths_of party program.now) }
    ensures in_range { IfOk result (λ widths. All (λ own. All IsWidth own.items) widths.items) }
{
    let mut widths = Vec::new(alloc);
    for instrs in program.workers.as_slice() {
        widths.push(widths_of(alloc, instrs.as_slice(), party)?)?;
    }
    Ok(widths)
}
