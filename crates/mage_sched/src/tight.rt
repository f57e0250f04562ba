ghost use Rattle.std.specs.Prelude.{◌≡◌, ◌≤◌};
ghost use Rattle.mage_instr.specs.declared.instr.TheConstants.{NEVER};
ghost use Rattle.mage_sched.specs.Schedule.{jobs_of, first_swap, buffer_tight};

use mage_instr::{Replaced, Tight};

/// The instruction that the first `Load` or `Save` of a list precedes, where the buffer has no slot for it.
///
/// The list has at most as many instructions as a `u32` counts.
pub fn buffer_tight(buffer: u16, list: &[Replaced]) -> Option<Tight>
    requires { jobs_of list.now ≤ NEVER }
    ensures { result ≡ buffer_tight buffer list.now }
{
    if buffer != 0 {
        return None;
    }
    let instr = first_swap(list)?;
    Some(Tight::Buffer { instr })
}

// The instruction in whose gap the first load or save stands.
fn first_swap(list: &[Replaced]) -> Option<u32>
    requires { jobs_of list.now ≤ NEVER }
    ensures { result ≡ first_swap 0 list.now }
{
    let mut instr = 0;
    for k in 0..list.len() {
        match list[k] {
            Replaced::Load { .. } | Replaced::Save { .. } => return Some(instr),
            Replaced::Fresh { .. } => {}
            Replaced::Do(_) => instr += 1,
        }
    }
    None
}
