// Laws of runs whose reads are answered, and of the transfers of a part.
ghost use Rattle.std.specs.Prelude.{◌≡◌, ℕ, List, None, IfSome, slice_get};
ghost use Rattle.mage_instr.specs.declared.directive.MemProgram.{MemProgram};
ghost use Rattle.mage_directives.specs.Directives.{IsMemProgram};
ghost use Rattle.mage_network.specs.Workers.{Stops};
ghost use Rattle.mage_steps.specs.Core.{answered_act, answered_after};
ghost use Rattle.mage_verify.specs.Faults.{fault_of};
ghost use Rattle.mage_verified_runs.specs.Turns.{verified_turns};
ghost use Rattle.mage_core.specs.Going.{reads_of, writes_of};
ghost use Rattle.mage_core.specs.Issues.{issues_in, issues_out};

use mage_driver::Driver;

/// The joint run of a memory program without a fault ends in every worker also where its reads are answered, right or wrong:
/// which turns can be made doesn't depend on what pages hold.
pub fn answered_joint_runs_of_verified_programs_end<D: Driver>()
    ensures { (plan : MemProgram) (drivers : ℕ → D.rules.State)
        (answers : ℕ → ℕ → List (List ℕ)) → IsMemProgram plan → fault_of plan ≡ None → (n : ℕ)
        → answered_act D.rules plan n
        (answered_after D.rules plan drivers answers (verified_turns plan.workers) n).state
        ≡ Stops }
{}

/// Each worker of a memory program without a fault finishes as many reads as it asks for, and as many writes: no transfer is left
/// at the end.
pub fn parts_finish_what_they_issue()
    ensures { (plan : MemProgram) → IsMemProgram plan → fault_of plan ≡ None → (w : ℕ)
        → IfSome (slice_get plan.workers w) (λ directives.
        (reads_of directives ≡ issues_in directives)
        × (writes_of directives ≡ issues_out directives)) }
{}
