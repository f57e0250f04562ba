// How many labels are due.
ghost use Rattle.std.specs.Prelude.{◌≡◌, ◌≤◌, ◌+◌, ◌*◌, ◌∷◌, List};
ghost use Rattle.mage_instr.specs.declared.instr.Instr.{Instr};
ghost use Rattle.mage_instr.specs.Sound.{IsSound};
ghost use Rattle.mage_label_files.specs.Labels.{wires_in};

use mage_instr::{Instr, Op};

// The count with the wires of an instruction more, where it takes a value of the evaluator.
fn with_wires_of(count: u64, instr: &Instr) -> u64
    requires { count ≤ 1_095_216_660_225 }
    ensures in_front { (others : List Instr) → result + wires_in others
        ≡ count + wires_in (instr.now ∷ others) }
    ensures few { result ≤ count + 255 }
{
    if matches!(instr.op, Op::Input) && instr.imm == 1 {
        count + u64::from(instr.width)
    } else {
        count
    }
}

/// How many wires the evaluator's inputs of a worker with these instructions have: a label is due for each.
#[tactic(auto, using(crate::proofs::Widths::few_instrs))]
pub fn wires_due(instrs: &[Instr]) -> u64
    requires { IsSound instrs.now }
    ensures due { result ≡ wires_in instrs.now }
    ensures few { result ≤ 1_095_216_660_225 }
{
    let mut count = 0;
    for instr in instrs {
        count = with_wires_of(count, instr);
    }
    count
}
