// Lists of instructions that can run, by how long their values live.
ghost use Rattle.std.specs.Prelude.{◌≡◌, ◌<◌, ◌+◌, ◌≤◌, ◌++◌, ◌∷◌, [], ℕ, length, IfOk, OnOk};
ghost use Rattle.mage_instr.specs.declared.instr.TheConstants.{NEVER};
ghost use Rattle.mage_instr.specs.declared.op.Op.TheVariants as op;
ghost use Rattle.mage_instr.specs.Sound.{IsSound, IsSoundAt, Defines};
ghost use Rattle.bench_placement.specs.Lists.{DefineWidth, AreInputs};

use mage_base::Memory;
use mage_instr::{Instr, Op};
use std::alloc::Global;

// Two inputs of a width, and then each value is the sum of the two before it.
pub fn short_lived(alloc: Global, count: u32, width: u8) -> Result<Vec<Instr>, Memory>
    requires width { (1 ≤ width) × (width ≤ 64) }
    ensures sound { IfOk result (λ list. IsSound list.items) }
    ensures count { IfOk result (λ list. length list.items ≡ count) }
{
    let mut list = Vec::with_capacity(alloc, count as usize)?;
    for t in 0..count {
        let instr = value_at(&list, t, width);
        add(&mut list, instr)?;
    }
    Ok(list)
}

// Inputs of every class, and then as many outputs, which take them in order: all inputs live at once.
pub fn long_lived(alloc: Global, count: u32) -> Result<Vec<Instr>, Memory>
    ensures sound { IfOk result (λ list. IsSound list.items) }
    ensures count { IfOk result (λ list. length list.items ≡ count) }
{
    let outputs = count / 2;
    let inputs = count - outputs;
    let mut list = inputs_of(alloc, inputs, count)?;
    for t in 0..outputs {
        let instr = output_at(&list, t);
        add(&mut list, instr)?;
    }
    Ok(list)
}

// Inputs of every class, with room for `room` instructions.
fn inputs_of(alloc: Global, count: u32, room: u32) -> Result<Vec<Instr>, Memory>
    ensures sound { IfOk result (λ list. IsSound list.items) }
    ensures count { IfOk result (λ list. length list.items ≡ count) }
    ensures inputs { IfOk result (λ list. AreInputs list.items count) }
{
    let mut list = Vec::with_capacity(alloc, room as usize)?;
    for t in 0..count {
        add(&mut list, input_of(mixed_width(t)))?;
    }
    Ok(list)
}

// A width of each class in turn.
fn mixed_width(t: u32) -> u8
    ensures above { 1 ≤ result }
    ensures below { result ≤ 64 }
{
    match t % 7 {
        0 => 1,
        1 => 2,
        2 => 3,
        3 => 5,
        4 => 9,
        5 => 17,
        _ => 33,
    }
}

// An input of the garbler.
fn input_of(width: u8) -> Instr
    ensures op { result.op ≡ op.Input }
    ensures width { result.width ≡ width }
    ensures imm { result.imm ≡ 0 }
{
    Instr {
        op: Op::Input,
        width,
        args: [0; 3],
        imm: 0,
    }
}

// Value t of the short-lived ones.
fn value_at(list: &[Instr], t: u32, width: u8) -> Instr
    requires width { (1 ≤ width) × (width ≤ 64) }
    requires here { length list.now ≡ t }
    requires wide { DefineWidth list.now width }
    ensures sound { IsSoundAt list.now t result }
    ensures wide { Defines result width }
{
    if t < 2 {
        input_of(width)
    } else {
        sum_at(list, t, width)
    }
}

// The sum of the two values before instruction t.
fn sum_at(list: &[Instr], t: u32, width: u8) -> Instr
    requires width { (1 ≤ width) × (width ≤ 64) }
    requires here { length list.now ≡ t }
    requires two { 2 ≤ t }
    requires wide { DefineWidth list.now width }
    ensures sound { IsSoundAt list.now t result }
    ensures wide { Defines result width }
{
    Instr {
        op: Op::Add,
        width,
        args: [t - 2, t - 1, 0],
        imm: 0,
    }
}

// The output of the value of instruction t.
fn output_at(list: &[Instr], t: u32) -> Instr
    requires sound { IsSound list.now }
    requires input { AreInputs list.now (t + 1) }
    ensures { IsSoundAt list.now (length list.now) result }
{
    Instr {
        op: Op::Output,
        width: list[t as usize].width,
        args: [t, 0, 0],
        imm: 0,
    }
}

// One instruction more.
#[tactic(auto, using(crate::proofs::Pushed::sound_pushed))]
fn add(list: &mut Vec<Instr>, instr: Instr) -> Result<(), Memory>
    requires sound { IsSound list.old.items }
    requires next { IsSoundAt list.old.items (length list.old.items) instr }
    requires room { length list.old.items < NEVER }
    ensures list { OnOk result (list.new.items ≡ list.old.items ++ instr ∷ []) }
    ensures sound { OnOk result (IsSound list.new.items) }
{
    list.push(instr)?;
    Ok(())
}
