// The laws of plain runs.
ghost use Rattle.std.specs.Prelude.{◌≡◌, ◌<◌, ℕ, List};
ghost use Rattle.mage_instr.specs.declared.directive.MemProgram.{MemProgram};
ghost use Rattle.mage_linked.specs.Emission.{program_of};
ghost use Rattle.mage_linked.specs.Workers.{list_at};
ghost use Rattle.mage_linked.specs.declared.emitted.Emitted.{Emitted};
ghost use Rattle.mage_meaning.specs.Given.{Given};
ghost use Rattle.mage_meaning.specs.Means.{means_of};
ghost use Rattle.mage_plain.specs.Plain.{Plain};
ghost use Rattle.mage_carried.specs.Laws.{Carries};
ghost use Rattle.mage_plain_runs.specs.Plainly.{CanRunPlainly, RunsAsMeant, unplaced_outputs};

/// Over plain drivers that are handed inputs which fit, a program on maps without bounds puts out what it
/// means on numbers; and so does the joint run of each memory program that carries it, in which every
/// worker ends.
pub fn plain_runs_mean_the_same()
    ensures unplaced { (count : ℕ) (emitted : List Emitted) (given : Given) (drivers : ℕ → Plain)
        → CanRunPlainly count emitted given drivers
        → (n : ℕ) → n < count
        → unplaced_outputs emitted drivers n ≡ list_at (means_of (program_of count emitted) given)
        n }
    ensures carried { (count : ℕ) (emitted : List Emitted) (given : Given) (drivers : ℕ → Plain)
        (plan : MemProgram) → CanRunPlainly count emitted given drivers → Carries count emitted plan
        → RunsAsMeant count emitted given drivers plan }
{}
