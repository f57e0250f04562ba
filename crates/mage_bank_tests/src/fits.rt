// Which instructions can be done over two frames of 64 wires.
ghost use Rattle.std.specs.Prelude.{◌≡◌, ◌<◌, IsTrue};
ghost use Rattle.mage_instr.specs.Opcodes.{WidthOk, width_of_arg};
ghost use Rattle.mage_circuit.specs.Results.{is_made};
ghost use Rattle.mage_bank.specs.Jobs.{Fits};
ghost use Rattle.mage_bank_tests.specs.Fitting.{ResultFits, ArgFits};

use mage_circuit::is_made;
use mage_instr::{Job, Op, Spot, arity, result_width, width_ok};

/// Whether a driver makes an instruction, it may have its width and immediate, and its values lie within the frames.
pub fn can_be_done(job: Job) -> bool
    ensures made { IsTrue result → IsTrue (is_made job.op) }
    ensures width { IsTrue result → WidthOk job.op job.width job.imm }
    ensures result { IsTrue result → ResultFits job }
    ensures first { IsTrue result → ArgFits job 0 }
    ensures second { IsTrue result → ArgFits job 1 }
    ensures third { IsTrue result → ArgFits job 2 }
{
    is_made(job.op)
        && width_ok(job.op, job.width, job.imm)
        && result_fits(job)
        && arg_fits(job, 0)
        && arg_fits(job, 1)
        && arg_fits(job, 2)
}

// Whether the result lies within the frames, where there is one.
fn result_fits(job: Job) -> bool
    ensures { IsTrue result → ResultFits job }
{
    match result_width(job.op, job.width) {
        Some(width) => fits(job.out, u64::from(width)),
        None => true,
    }
}

// Whether argument k does, where there is one.
fn arg_fits(job: Job, k: usize) -> bool
    requires { k < 3 }
    ensures { IsTrue result → ArgFits job k }
{
    usize::from(arity(job.op)) <= k || fits(job.args[k], arg_width(job, k))
}

// The width of argument k.
fn arg_width(job: Job, k: usize) -> u64
    ensures { result ≡ width_of_arg job.op job.width job.imm k }
{
    match job.op {
        Op::Mux if k == 0 => 1,
        Op::Resize => job.imm,
        _ => u64::from(job.width),
    }
}

/// Whether a value of this width lies within the frames.
pub fn fits(spot: Spot, width: u64) -> bool
    ensures { IsTrue result → Fits 2 64 width spot }
{
    spot.frame < 2 && u128::from(spot.offset) + u128::from(width) <= 64
}
