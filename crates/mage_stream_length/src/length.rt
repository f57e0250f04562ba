// How long a stream is, by the instructions of its worker.
ghost use Rattle.std.specs.Prelude.{◌≡◌, ◌≤◌};
ghost use Rattle.mage_instr.specs.Opcodes.{WidthOk};
ghost use Rattle.mage_instr.specs.Sound.{IsSound};
ghost use Rattle.mage_stream_length.specs.Length.{bytes_of, length_of};

use mage_instr::{Instr, Op, and_count};

// What is said at an instruction.
fn bytes_of(instr: Instr) -> u64
    requires { WidthOk instr.op instr.width instr.imm }
    ensures bytes { result ≡ bytes_of instr }
    ensures few { result ≤ 1_052_672 }
{
    match instr.op {
        Op::Input if instr.imm == 0 => 16 * u64::from(instr.width),
        Op::Input => 0,
        Op::Output => u64::from(instr.width),
        _ => 32 * u64::from(and_count(instr.op, instr.width)),
    }
}

/// How many bytes the stream of a worker with these instructions has at most: 16 for each wire of an input of the garbler, one for each
/// wire of an output, and 32 for each AND.
#[tactic(auto, using(crate::proofs::Widths::sound_widths))]
pub fn stream_length(instrs: &[Instr]) -> u64
    requires { IsSound instrs.now }
    ensures { result ≡ length_of instrs.now }
{
    let mut total = 0;
    for instr in instrs {
        total += bytes_of(*instr);
    }
    total
}
