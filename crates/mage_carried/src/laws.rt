// The law of carried programs.
ghost use Rattle.std.specs.Prelude.{◌≡◌, ℕ, Bool, true, List};
ghost use Rattle.mage_instr.specs.declared.directive.MemProgram.{MemProgram};
ghost use Rattle.mage_linked.specs.declared.emitted.Emitted.{Emitted};
ghost use Rattle.mage_steps.specs.Orderly.{AreOrderly};
ghost use Rattle.mage_carried.specs.Wires.{CallsGiveWires};
ghost use Rattle.mage_carried.specs.Laws.{CanRun, Carries, RunsAsUnplaced};

use mage_driver::Driver;

/// A memory program that carries a program: its directives are orderly, its joint run ends, and in it
/// each worker's driver gets just the calls, on just the states, that it gets where the program runs on
/// maps without bounds, over any driver whose calls give wires in fine states, from a fine state on.
pub fn carried_programs_run_as_unplaced<D: Driver>()
    ensures orderly { (count : ℕ) (emitted : List Emitted) (plan : MemProgram)
        → Carries count emitted plan → AreOrderly plan }
    ensures runs { (count : ℕ) (emitted : List Emitted) (plan : MemProgram)
        (drivers : ℕ → D.rules.State) (fine : D.rules.State → Bool) → CallsGiveWires D.rules fine
        → ((n : ℕ) → fine (drivers n) ≡ true) → CanRun count emitted
        → Carries count emitted plan → RunsAsUnplaced D.rules emitted drivers count plan }
{}
