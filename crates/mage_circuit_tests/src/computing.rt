// An instruction made in plain, and what it has to give.
ghost use Rattle.std.specs.Prelude.{◌≤◌, ◌<◌};

use mage_base::Memory;
use mage_circuit::{Scratch, exec, is_made};
use mage_instr::{Op, width_ok};
use mage_plain::PlainDriver;
use std::alloc::Global;

// A number below 2 to the width with each bit 1.
pub fn all_ones(width: u8) -> u128 {
    if width < 128 {
        (1 << width) - 1
    } else {
        u128::MAX
    }
}

// What an instruction has to give, by the arithmetic of the machine.
pub fn wanted(op: Op, width: u8, imm: u64, [a, b, c]: [u128; 3]) -> u128 {
    let mask = all_ones(width);
    let amount = u32::try_from(imm).unwrap_or(u32::MAX);
    match op {
        Op::Const => u128::from(imm),
        Op::Add => a.wrapping_add(b) & mask,
        Op::Sub => a.wrapping_sub(b) & mask,
        Op::Mul => a.wrapping_mul(b) & mask,
        Op::And => a & b,
        Op::Or => a | b,
        Op::Xor => a ^ b,
        Op::Not => !a & mask,
        Op::Eq => u128::from(a == b),
        Op::Lt => u128::from(a < b),
        Op::Mux => { if a == 1 { b } else { c } }
        Op::Shl => a.checked_shl(amount).unwrap_or(0) & mask,
        Op::Shr => a.checked_shr(amount).unwrap_or(0),
        Op::Resize => a & mask,
        Op::Div => a.checked_div(b).unwrap_or(mask),
        Op::Rem => a.checked_rem(b).unwrap_or(a),
        Op::Count => u128::from(a.count_ones()),
        Op::Min => a.min(b),
        Op::Max => a.max(b),
        Op::Input | Op::Output | Op::Send | Op::Recv => 0,
    }
}

// Writes the bits of a number as an argument.
fn put_number(scratch: &mut Scratch<PlainDriver>, arg: u8, number: u128)
    requires { arg < 3 }
{
    let mut left = number;
    for bit in 0..128 {
        scratch.put(arg, bit, left % 2 == 1);
        left /= 2;
    }
}

// The number of the lowest bits of a result.
fn number_of(scratch: &Scratch<PlainDriver>, width: u8) -> u128
    requires { width ≤ 128 }
{
    let mut number: u128 = 0;
    for bit in 0..width {
        if scratch.get(bit) {
            number |= 1 << bit;
        }
    }
    number
}

// What the circuit of an instruction gives in plain, or `None` where it has none of this width and immediate.
pub fn computed(
    alloc: Global,
    op: Op,
    width: u8,
    imm: u64,
    args: [u128; 3],
) -> Result<Option<u128>, Memory> {
    let mut driver = PlainDriver::make(alloc, Vec::new(alloc), Vec::new(alloc), 0)?;
    let mut scratch = Scratch::make(alloc, &driver)?;
    put_number(&mut scratch, 0, args[0]);
    put_number(&mut scratch, 1, args[1]);
    put_number(&mut scratch, 2, args[2]);
    if !is_made(op) || !width_ok(op, width, imm) {
        return Ok(None);
    }
    if exec(&mut driver, op, width, imm, &mut scratch).is_err() {
        return Ok(None);
    }
    let bits = match op {
        Op::Eq | Op::Lt => 1,
        _ => width,
    };
    Ok(Some(number_of(&scratch, bits)))
}
