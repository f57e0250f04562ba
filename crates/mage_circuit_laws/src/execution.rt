// An instruction made in plain.
ghost use Rattle.std.specs.Prelude.{◌≡◌, take, IsTrue};
ghost use Rattle.mage_bits.specs.Bits.{bits, number};
ghost use Rattle.mage_instr.specs.Opcodes.{WidthOk, width_of_arg, width_of_result};
ghost use Rattle.mage_instr.specs.Computed.{computed};
ghost use Rattle.mage_driver.specs.declared.standing.Standing.TheVariants as standing;
ghost use Rattle.mage_circuit.specs.Results.{wires_of_result};
ghost use Rattle.mage_circuit_laws.specs.Right.{computes};

use mage_circuit::{Scratch, exec};
use mage_instr::Op;
use mage_plain::PlainDriver;

/// Makes an instruction in plain: the result has the bits of the number that the instruction computes from the numbers of its
/// arguments, and the driver goes on running.
pub fn exec_in_plain(
    driver: &mut PlainDriver,
    op: Op,
    width: u8,
    imm: u64,
    scratch: &mut Scratch<PlainDriver>,
)
    requires running { driver.old.standing ≡ standing.Running }
    requires width { WidthOk op width imm }
    requires computes { IsTrue (computes op) }
    ensures running { driver.new.standing ≡ standing.Running }
    ensures bits { take (wires_of_result op width) scratch.new.result.items ≡ bits
        (computed op width imm
        (number (take (width_of_arg op width imm 0) scratch.old.first.items))
        (number (take (width_of_arg op width imm 1) scratch.old.second.items))
        (number (take (width_of_arg op width imm 2) scratch.old.third.items)))
        (width_of_result op width) }
{
    let _ = exec(driver, op, width, imm, scratch);
}
