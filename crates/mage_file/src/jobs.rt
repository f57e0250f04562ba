// Reading an instruction.
ghost use Rattle.std.specs.Prelude.{◌≡◌, ◌↔◌, IsTrue};
ghost use Rattle.std.specs.Int.{w16, w64};
ghost use Rattle.mage_instr.specs.declared.op.Op.TheVariants as op;
ghost use Rattle.mage_instr.specs.Opcodes.{has_result};
ghost use Rattle.mage_file.specs.Rules.{is_imm, is_link, is_immediate};
ghost use Rattle.mage_file.specs.Formats.{Reads, field};
ghost use Rattle.mage_file.specs.Grammar.{spot, instruction, constant, job};

use crate::fault::FileFault;
use crate::fields::most_u16;
use crate::kinds::is_const;
use crate::left::Left;
use mage_instr::{GREATEST_WIDTH, Job, Op, Spot, arity, result_width, width_ok};

// Stands for no spot.
const NO_SPOT: Spot = Spot {
    frame: 0,
    offset: 0,
};

// Whether the opcode has a result.
fn has_result(op: Op) -> bool
    ensures { result ≡ has_result op }
{
    result_width(op, 1).is_some()
}

// Whether an instruction of this width may have this immediate.
fn is_imm(op: Op, width: u8, imm: u64) -> bool
    ensures { result ≡ is_imm op width imm }
{
    width_ok(op, width, imm)
}

// Whether the other end of a link is another worker of the program.
#[tactic(auto, unfolding(crate::specs::Rules::is_link))]
fn is_link(workers: u16, own: u16, op: Op, imm: u16) -> bool
    ensures { result ≡ is_link workers own op imm }
{
    match op {
        Op::Send | Op::Recv => imm < workers && imm != own,
        _ => true,
    }
}

// Frame and offset, where there is a spot.
#[tactic(auto, unfolding(crate::specs::Formats::chain, crate::specs::Formats::done, crate::specs::Grammar::spot))]
fn spot(left: Left<'_>, there: bool) -> Result<(Spot, Left<'_>), FileFault>
    ensures { Reads (spot there) result left.entry }
{
    let most = most_u16(there);
    let (frame, left) = left.u16_within(0, most)?;
    let (offset, left) = left.u16_within(0, most)?;
    Ok((Spot { frame, offset }, left))
}

// The immediate of an instruction but `Const`.
#[tactic(auto, unfolding(crate::specs::Formats::field))]
fn immediate(
    left: Left<'_>,
    workers: u16,
    own: u16,
    op: Op,
    width: u8,
) -> Result<(u64, Left<'_>), FileFault>
    ensures { Reads (field w16 (is_immediate workers own op width)) result left.entry }
{
    let (imm, after) = left.take_u16()?;
    if is_imm(op, width, u64::from(imm)) && is_link(workers, own, op, imm) {
        Ok((u64::from(imm), after))
    } else {
        Err(FileFault::Field { at: left.place() })
    }
}

// The value of a constant.
#[tactic(auto, unfolding(crate::specs::Formats::field))]
fn value(left: Left<'_>, width: u8) -> Result<(u64, Left<'_>), FileFault>
    ensures { Reads (field w64 (is_imm op.Const width)) result left.entry }
{
    let (value, after) = left.take_u64()?;
    if is_imm(Op::Const, width, value) {
        Ok((value, after))
    } else {
        Err(FileFault::Field { at: left.place() })
    }
}

// An instruction but `Const`, behind its width.
#[tactic(auto, unfolding(crate::specs::Formats::chain, crate::specs::Formats::done, crate::specs::Grammar::instruction))]
fn instruction(
    left: Left<'_>,
    workers: u16,
    own: u16,
    op: Op,
    width: u8,
) -> Result<(Job, Left<'_>), FileFault>
    ensures { Reads (instruction workers own op width) result left.entry }
{
    let arity = arity(op);
    let (imm, left) = immediate(left, workers, own, op, width)?;
    let (out, left) = spot(left, has_result(op))?;
    let (first, left) = spot(left, 0 < arity)?;
    let (second, left) = spot(left, 1 < arity)?;
    let (third, left) = spot(left, 2 < arity)?;
    let args = [first, second, third];
    let job = Job {
        op,
        width,
        imm,
        out,
        args,
    };
    Ok((job, left))
}

// `Const`, behind its width.
#[tactic(auto, unfolding(crate::specs::Formats::chain, crate::specs::Formats::done, crate::specs::Grammar::constant))]
fn constant(left: Left<'_>, width: u8) -> Result<(Job, Left<'_>), FileFault>
    ensures { Reads (constant width) result left.entry }
{
    let (_, left) = left.u16_within(0, 0)?;
    let (out, left) = spot(left, has_result(Op::Const))?;
    let (imm, left) = value(left, width)?;
    let (third, left) = spot(left, false)?;
    let args = [NO_SPOT, NO_SPOT, third];
    let job = Job {
        op: Op::Const,
        width,
        imm,
        out,
        args,
    };
    Ok((job, left))
}

// An instruction of one of so many workers, behind its opcode.
#[tactic(auto, unfolding(crate::specs::Formats::chain, crate::specs::Formats::done, crate::specs::Formats::either, crate::specs::Grammar::job))]
pub fn job(left: Left<'_>, workers: u16, own: u16, op: Op) -> Result<(Job, Left<'_>), FileFault>
    ensures { Reads (job workers own op) result left.entry }
{
    let (width, left) = left.u8_within(1, GREATEST_WIDTH)?;
    if is_const(op) {
        constant(left, width)
    } else {
        instruction(left, workers, own, op, width)
    }
}
