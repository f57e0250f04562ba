// Which issues of a write leave their frame: nothing uses the frame before it takes another page.
ghost use Rattle.std.specs.Prelude.{◌≡◌, ◌∷◌, [], ℕ, List, true, length, IfOk};
ghost use Rattle.mage_instr.specs.declared.directive.Directive.{Directive};
ghost use Rattle.mage_instr.specs.declared.directive.Directive.TheVariants as entry;
ghost use Rattle.mage_instr.specs.Limits.{most_frames};
ghost use Rattle.mage_verify.specs.Leaving.{leaves_first, leaves_of};
ghost use Rattle.mage_verify.specs.Lefts.{entry_of, IsTable, IsUsed, IsSet};

use mage_base::Memory;
use mage_instr::{Directive, Job, Spot, arity, result_width};
use std::alloc::Global;

// How many frames a number of two bytes can name.
const FRAMES: usize = 65_536;

// Whether each directive is the issue of a write that leaves its frame.
pub(crate) fn leaves_of(alloc: Global, directives: &[Directive]) -> Result<Vec<bool>, Memory>
    ensures { IfOk result (λ leaves. leaves.items ≡ leaves_of directives.now) }
{
    let mut left = all_left(alloc, FRAMES)?;
    let mut leaves = vec![in alloc; false; directives.len()]?;
    find_leaves(directives, left.as_mut_slice(), leaves.as_mut_slice());
    Ok(leaves)
}

// The table behind the last directive: each frame is left.
fn all_left(alloc: Global, frames: usize) -> Result<Vec<bool>, Memory>
    ensures count { IfOk result (λ left. length left.items ≡ frames) }
    ensures each { IfOk result (λ left. (frame : ℕ) → entry_of left.items frame ≡ true) }
{
    Ok(vec![in alloc; true; frames]?)
}

// From the last directive to the first.
fn find_leaves(directives: &[Directive], left: &mut [bool], leaves: &mut [bool])
    requires table { IsTable left.old [] }
    requires count { length leaves.old ≡ length directives.now }
    ensures { leaves.new ≡ leaves_of directives.now }
{
    for behind in 0..directives.len() {
        let at = directives.len() - 1 - behind;
        let directive = directives[at];
        leaves[at] = leaves_first(left, directive);
        step_back(left, directive);
    }
}

// Whether a directive is the issue of a write that leaves its frame, by the table of what comes behind it.
fn leaves_first(left: &[bool], directive: Directive) -> bool
    requires { length left.now ≡ most_frames }
    ensures { (rest : List Directive) → IsTable left.now rest → result ≡ leaves_first (directive ∷ rest) }
{
    match directive {
        Directive::IssueOut { frame, .. } => left[usize::from(frame)],
        _ => false,
    }
}

// The table in front of a directive, from the one behind it.
fn step_back(left: &mut [bool], directive: Directive)
    requires { length left.old ≡ most_frames }
    ensures count { length left.new ≡ most_frames }
    ensures table { (rest : List Directive) → IsTable left.old rest → IsTable left.new (directive ∷ rest) }
{
    match directive {
        Directive::Fresh { frame, .. } => set(left, frame, true),
        Directive::FinishIn { frame, .. } => set(left, frame, true),
        Directive::IssueOut { frame, .. } => set(left, frame, false),
        Directive::Do(job) => use_values(left, job),
        Directive::IssueIn { .. } | Directive::FinishOut { .. } => {}
    }
}

// An instruction uses the frames of its values.
fn use_values(left: &mut [bool], job: Job)
    requires { length left.old ≡ most_frames }
    ensures count { length left.new ≡ most_frames }
    ensures table { (rest : List Directive) → IsTable left.old rest → IsTable left.new (entry.Do job ∷ rest) }
{
    let arity = arity(job.op);
    use_spot(left, result_width(job.op, job.width).is_some(), job.out);
    use_spot(left, 0 < arity, job.args[0]);
    use_spot(left, 1 < arity, job.args[1]);
    use_spot(left, 2 < arity, job.args[2]);
}

// The frame of a spot is used, where the spot is there.
fn use_spot(left: &mut [bool], there: bool, spot: Spot)
    requires { length left.old ≡ most_frames }
    ensures { IsUsed left.old left.new there spot }
{
    if there {
        set(left, spot.frame, false);
    }
}

fn set(left: &mut [bool], frame: u16, now: bool)
    requires { length left.old ≡ most_frames }
    ensures { IsSet left.old left.new frame now }
{
    left[usize::from(frame)] = now;
}
