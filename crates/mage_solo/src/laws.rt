// A law of joint runs.
ghost use Rattle.std.specs.Prelude.{◌≡◌, ℕ, List, None};
ghost use Rattle.mage_instr.specs.declared.directive.MemProgram.{MemProgram};
ghost use Rattle.mage_directives.specs.Directives.{IsMemProgram};
ghost use Rattle.mage_verify.specs.Faults.{fault_of};
ghost use Rattle.mage_network.specs.Together.{Joint};
ghost use Rattle.mage_steps.specs.Core.{joint_after};
ghost use Rattle.mage_steps.specs.Laws.{EndsInJoint};
ghost use Rattle.mage_verified_runs.specs.Turns.{verified_turns};

use mage_driver::Driver;

/// Where the joint run of a memory program without a fault ends doesn't depend on its turns: a worker that has ended after some
/// turns stands, with all that it did, where the verifier's order leaves it.
pub fn joint_runs_of_verified_programs_agree<D: Driver>()
    ensures { (plan : MemProgram) (drivers : ℕ → D.rules.State) → IsMemProgram plan
        → fault_of plan ≡ None → (turns : List Joint) (n : ℕ)
        → EndsInJoint D.rules plan drivers turns n → joint_after D.rules plan drivers turns n
        ≡ joint_after D.rules plan drivers (verified_turns plan.workers) n }
{}
