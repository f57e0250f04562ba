// The circuit of an instruction.
ghost use Rattle.std.specs.Prelude.{◌≡◌, ◌≤◌, ◌*◌, length, take, IsTrue};
ghost use Rattle.mage_instr.specs.Opcodes.{WidthOk, width_of_arg};
ghost use Rattle.mage_driver.specs.declared.standing.Standing.TheVariants as standing;
ghost use Rattle.mage_driver.specs.Circuits.{Leaves};
ghost use Rattle.mage_driver.specs.Operations.{circuit_of, party_of};
ghost use Rattle.mage_circuit.specs.Results.{is_made, wires_of_result};

use crate::Scratch;
use crate::comparisons::{greatest, least, less};
use crate::counts::count;
use crate::each::{and_each, choose_each, equal, or_each};
use crate::moves::{constant_each, move_down, move_up, not_each, resize, xor_each};
use crate::products::multiply;
use crate::quotients::{quotient, remainder};
use crate::sums::{add, subtract};
use mage_driver::Driver;
use mage_instr::{DriverFault, Op, Party};

/// Makes the circuit of an instruction of this width and immediate on the arguments in the scratch, and leaves the result
/// there. It takes no memory. A fault is the driver's, answered by one of the circuit's calls after Ok from those before it.
pub fn exec<D: Driver>(
    driver: &mut D,
    op: Op,
    width: u8,
    imm: u64,
    scratch: &mut Scratch<D>,
) -> Result<(), DriverFault>
    requires running { (D.tells driver.old).standing ≡ standing.Running }
    requires width { WidthOk op width imm }
    requires made { IsTrue (is_made op) }
    ensures circuit { Leaves D.rules (circuit_of D.rules op width imm
        (take (width_of_arg op width imm 0) scratch.old.first.items)
        (take (width_of_arg op width imm 1) scratch.old.second.items)
        (take (width_of_arg op width imm 2) scratch.old.third.items))
        (D.tells driver.old) (D.tells driver.new)
        (λ _. take (wires_of_result op width) scratch.new.result.items) result }
    ensures first { scratch.new.first ≡ scratch.old.first }
    ensures second { scratch.new.second ≡ scratch.old.second }
    ensures third { scratch.new.third ≡ scratch.old.third }
{
    make_in_vectors(
        driver,
        op,
        width,
        imm,
        &scratch.first,
        &scratch.second,
        &scratch.third,
        &mut scratch.result,
        &mut scratch.line,
        &mut scratch.window,
    )
}

// The same over the scratch's vectors one by one.
fn make_in_vectors<D: Driver>(
    driver: &mut D,
    op: Op,
    width: u8,
    imm: u64,
    first: &Vec<D::Wire>,
    second: &Vec<D::Wire>,
    third: &Vec<D::Wire>,
    out: &mut Vec<D::Wire>,
    line: &mut Vec<D::Wire>,
    window: &mut Vec<D::Wire>,
) -> Result<(), DriverFault>
    requires running { (D.tells driver.old).standing ≡ standing.Running }
    requires width { WidthOk op width imm }
    requires made { IsTrue (is_made op) }
    requires first { length first.now.items ≡ 128 }
    requires second { length second.now.items ≡ 128 }
    requires third { length third.now.items ≡ 128 }
    requires out { length out.old.items ≡ 128 }
    requires line { length line.old.items ≡ 128 }
    requires window { length window.old.items ≡ 256 }
    ensures circuit { Leaves D.rules (circuit_of D.rules op width imm
        (take (width_of_arg op width imm 0) first.now.items)
        (take (width_of_arg op width imm 1) second.now.items)
        (take (width_of_arg op width imm 2) third.now.items))
        (D.tells driver.old) (D.tells driver.new)
        (λ _. take (wires_of_result op width) out.new.items) result }
    ensures out_length { length out.new.items ≡ 128 }
    ensures line_length { length line.new.items ≡ 128 }
    ensures window_length { length window.new.items ≡ 256 }
{
    make_in_slices(
        driver,
        op,
        width,
        imm,
        first.as_slice(),
        second.as_slice(),
        third.as_slice(),
        out.as_mut_slice(),
        line.as_mut_slice(),
        window.as_mut_slice(),
    )?;
    Ok(())
}

// The same over their slices.
fn make_in_slices<D: Driver>(
    driver: &mut D,
    op: Op,
    width: u8,
    imm: u64,
    first: &[D::Wire],
    second: &[D::Wire],
    third: &[D::Wire],
    out: &mut [D::Wire],
    line: &mut [D::Wire],
    window: &mut [D::Wire],
) -> Result<(), DriverFault>
    requires running { (D.tells driver.old).standing ≡ standing.Running }
    requires width { WidthOk op width imm }
    requires made { IsTrue (is_made op) }
    requires first { length first.now ≡ 128 }
    requires second { length second.now ≡ 128 }
    requires third { length third.now ≡ 128 }
    requires out { length out.old ≡ 128 }
    requires line { length line.old ≡ 128 }
    requires window { length window.old ≡ 256 }
    ensures { Leaves D.rules (circuit_of D.rules op width imm
        (take (width_of_arg op width imm 0) first.now)
        (take (width_of_arg op width imm 1) second.now)
        (take (width_of_arg op width imm 2) third.now))
        (D.tells driver.old) (D.tells driver.new)
        (λ _. take (wires_of_result op width) out.new) result }
{
    let w = usize::from(width);
    let wide = first_width(op, w, imm);
    make(
        driver,
        op,
        imm,
        &first[..wide],
        &second[..w],
        &third[..w],
        &mut out[..w],
        &mut line[..w],
        &mut window[..2 * w],
    )?;
    Ok(())
}

/// Whether a driver makes an instruction: all but the two that move wires between workers.
pub fn is_made(op: Op) -> bool
    ensures { result ≡ is_made op }
{
    !matches!(op, Op::Send | Op::Recv)
}

// How many wires the first argument of an instruction has.
fn first_width(op: Op, width: usize, imm: u64) -> usize
    requires { WidthOk op width imm }
    ensures { result ≡ width_of_arg op width imm 0 }
{
    match op {
        Op::Mux => 1,
        Op::Resize => imm as usize,
        _ => width,
    }
}

// The same over slices of just the wires that the instruction has.
fn make<D: Driver>(
    driver: &mut D,
    op: Op,
    imm: u64,
    a: &[D::Wire],
    b: &[D::Wire],
    c: &[D::Wire],
    out: &mut [D::Wire],
    line: &mut [D::Wire],
    window: &mut [D::Wire],
) -> Result<(), DriverFault>
    requires running { (D.tells driver.old).standing ≡ standing.Running }
    requires width { WidthOk op (length out.old) imm }
    requires made { IsTrue (is_made op) }
    requires a { length a.now ≡ width_of_arg op (length out.old) imm 0 }
    requires b { length b.now ≡ length out.old }
    requires c { length c.now ≡ length out.old }
    requires line { length line.old ≡ length out.old }
    requires window { length window.old ≡ 2 * length out.old }
    ensures { Leaves D.rules (circuit_of D.rules op (length out.old) imm a.now b.now c.now)
        (D.tells driver.old) (D.tells driver.new)
        (λ _. take (wires_of_result op (length out.old)) out.new) result }
{
    match op {
        Op::Input => driver.input(party_of(imm), out),
        Op::Const => Ok(constant_each(driver, imm, out)),
        Op::Output => driver.output(a),
        Op::Add => add(driver, a, b, out),
        Op::Sub => subtract(driver, a, b, out),
        Op::Mul => multiply(driver, a, b, out, line),
        Op::And => and_each(driver, a, b, out),
        Op::Or => or_each(driver, a, b, out),
        Op::Xor => Ok(xor_each(driver, a, b, out)),
        Op::Not => Ok(not_each(driver, a, out)),
        Op::Eq => equal(driver, a, b, out),
        Op::Lt => less(driver, a, b, out),
        Op::Mux => choose_each(driver, a[0], b, c, out),
        Op::Shl => Ok(move_up(driver, a, imm as usize, out)),
        Op::Shr => Ok(move_down(driver, a, imm as usize, out)),
        Op::Resize => Ok(resize(driver, a, out)),
        Op::Div => quotient(driver, a, b, window, line, out),
        Op::Rem => remainder(driver, a, b, window, line, out),
        Op::Count => count(driver, a, out),
        Op::Min => least(driver, a, b, out),
        Op::Max => greatest(driver, a, b, out),
        Op::Send | Op::Recv => Ok(()),
    }
}

// The party of an input's immediate.
fn party_of(imm: u64) -> Party
    ensures { result ≡ party_of imm }
{
    if imm == 0 {
        Party::Garbler
    } else {
        Party::Evaluator
    }
}
