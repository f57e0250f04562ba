// Whether what a directive names is there.
ghost use Rattle.std.specs.Prelude.{◌≡◌, ◌<◌};
ghost use Rattle.mage_instr.specs.Opcodes.{width_of_arg};
ghost use Rattle.mage_verify.specs.Range.{fits, result_fits, arg_fits, values_fit, is_in_range, has_page};

use mage_instr::{Directive, Job, Limits, Op, Spot, arity, result_width};

// The frame and the slot that a directive names are there, and its values fit.
pub(crate) fn is_in_range(limits: Limits, directive: Directive) -> bool
    ensures { result ≡ is_in_range limits directive }
{
    match directive {
        Directive::Fresh { frame, .. } => u32::from(frame) < limits.frames,
        Directive::IssueIn { slot, .. } => slot < limits.buffer,
        Directive::FinishIn { slot, frame } => {
            slot < limits.buffer && u32::from(frame) < limits.frames
        }
        Directive::IssueOut { slot, frame, .. } => {
            slot < limits.buffer && u32::from(frame) < limits.frames
        }
        Directive::FinishOut { slot } => slot < limits.buffer,
        Directive::Do(job) => values_fit(limits, job),
    }
}

// The store page that a transfer names is there.
pub(crate) fn has_page(pages: u32, directive: Directive) -> bool
    ensures { result ≡ has_page pages directive }
{
    match directive {
        Directive::IssueIn { page, .. } => page < pages,
        Directive::IssueOut { page, .. } => page < pages,
        _ => true,
    }
}

// Each value of an instruction fits.
fn values_fit(limits: Limits, job: Job) -> bool
    ensures { result ≡ values_fit limits job }
{
    result_fits(limits, job)
        && arg_fits(limits, job, 0)
        && arg_fits(limits, job, 1)
        && arg_fits(limits, job, 2)
}

// The result fits, where there is one.
fn result_fits(limits: Limits, job: Job) -> bool
    ensures { result ≡ result_fits limits job }
{
    match result_width(job.op, job.width) {
        Some(width) => fits(limits, u64::from(width), job.out),
        None => true,
    }
}

// Argument k fits, where there is one.
fn arg_fits(limits: Limits, job: Job, k: usize) -> bool
    requires { k < 3 }
    ensures { result ≡ arg_fits limits job k }
{
    usize::from(arity(job.op)) <= k || fits(limits, arg_width(job, k), job.args[k])
}

// The width of argument k.
fn arg_width(job: Job, k: usize) -> u64
    ensures { result ≡ width_of_arg job.op job.width job.imm k }
{
    match job.op {
        Op::Mux if k == 0 => 1,
        Op::Resize => job.imm,
        _ => u64::from(job.width),
    }
}

// A value's frame is there, and the value ends within its page.
fn fits(limits: Limits, width: u64, spot: Spot) -> bool
    ensures { result ≡ fits limits width spot }
{
    u32::from(spot.frame) < limits.frames
        && u128::from(spot.offset) + u128::from(width) <= u128::from(limits.page)
}
