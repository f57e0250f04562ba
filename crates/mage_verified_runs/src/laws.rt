// The laws of verified programs.
ghost use Rattle.std.specs.Prelude.{◌≡◌, ◌⊎◌, ℕ, List, None};
ghost use Rattle.mage_instr.specs.declared.directive.MemProgram.{MemProgram};
ghost use Rattle.mage_verify.specs.Faults.{fault_of};
ghost use Rattle.mage_network.specs.Laws.{IsCapacity};
ghost use Rattle.mage_network.specs.Slots.{Service};
ghost use Rattle.mage_network.specs.Waiting.{Event};
ghost use Rattle.mage_steps.specs.Core.{joint_after};
ghost use Rattle.mage_steps.specs.Orderly.{AreOrderly, IsThrough};
ghost use Rattle.mage_steps.specs.Laws.{core_after, SomeIsEnabled, EndsInJoint, IsWhole, BeginsJoint};
ghost use Rattle.mage_directives.specs.Directives.{IsMemProgram};
ghost use Rattle.mage_verified_runs.specs.Turns.{verified_turns};

use mage_driver::Driver;

/// The directives of a memory program without a fault are orderly, whether it carries a program or not:
/// each issue finds its slot idle and its page at rest, each finish a transfer of its kind in flight, and no
/// slot is in flight at the end. The laws of the core ask for this.
pub fn verified_programs_are_orderly()
    ensures { (plan : MemProgram) → fault_of plan ≡ None → AreOrderly plan }
{}

/// The joint run of a memory program without a fault ends in every worker, over the rules of any driver: its turns
/// are those of the verifier's order, a wire of a value at a time, and at last each worker finishes its
/// driver.
pub fn joint_runs_of_verified_programs_end<D: Driver>()
    ensures { (plan : MemProgram) (drivers : ℕ → D.rules.State) → IsMemProgram plan
        → fault_of plan ≡ None → (n : ℕ)
        → EndsInJoint D.rules plan drivers (verified_turns plan.workers) n }
{}

/// So for each capacity from 1 on, after every list of events, in whatever order workers have their turns and
/// others claim and serve their transfers: all that a worker said, sent and put out begins that of this
/// joint run; and some event is enabled, or each worker is through and did all of it.
pub fn verified_programs_run_as_together<D: Driver>()
    ensures begins { (plan : MemProgram) (drivers : ℕ → D.rules.State) → IsMemProgram plan
        → fault_of plan ≡ None → (capacity : ℕ) (events : List (Event Service)) (n : ℕ)
        → BeginsJoint D.rules plan n ((core_after D.rules plan drivers capacity events).workers n)
        (joint_after D.rules plan drivers (verified_turns plan.workers) n) }
    ensures unstuck { (plan : MemProgram) (drivers : ℕ → D.rules.State) → IsMemProgram plan
        → fault_of plan ≡ None → (capacity : ℕ) (events : List (Event Service))
        → IsCapacity capacity → SomeIsEnabled D.rules plan drivers capacity events
        ⊎ ((n : ℕ) → IsThrough D.rules plan n
        ((core_after D.rules plan drivers capacity events).workers n).state
        × IsWhole D.rules plan ((core_after D.rules plan drivers capacity events).workers n)
        (joint_after D.rules plan drivers (verified_turns plan.workers) n)) }
{}
