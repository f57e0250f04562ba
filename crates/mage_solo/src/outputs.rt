// How many values a part puts out, and what is answered of them.
ghost use Rattle.std.specs.Prelude.{◌≡◌, ◌<◌, ◌^◌, None, Some, length, IfErr, IfOk, OnOk};
ghost use Rattle.mage_solo.specs.Plain.{puts_out, outputs_done};

use mage_core::RunFault;
use mage_instr::{Directive, Op};

// Whether a directive puts a value out.
fn puts_out(directive: Directive) -> bool
    ensures { result ≡ puts_out directive }
{
    match directive {
        Directive::Do(job) => job.op == Op::Output,
        _ => false,
    }
}

// How many values some directives put out.
pub(crate) fn count_outputs(directives: &[Directive]) -> u32
    requires { length directives.now < 2 ^ 32 }
    ensures { result ≡ outputs_done directives.now }
{
    let mut count = 0;
    for directive in directives {
        if puts_out(*directive) {
            count += 1;
        }
    }
    count
}

// What the workers put out, unless something stopped the run.
pub(crate) fn unless_stopped(
    fault: Option<RunFault>,
    outputs: Vec<Vec<u128>>,
) -> Result<Vec<Vec<u128>>, RunFault>
    ensures ok { IfOk result (λ all. (fault ≡ None) × (all ≡ outputs)) }
    ensures err { IfErr result (λ f. fault ≡ Some f) }
{
    match fault {
        None => Ok(outputs),
        Some(fault) => Err(fault),
    }
}
