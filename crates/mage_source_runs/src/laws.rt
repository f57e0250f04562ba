// What holds of a run of a source's memory program.
ghost use Rattle.mage_source_runs.specs.Moves.{PlansMoveAsCounted};
ghost use Rattle.mage_source_runs.specs.Runs.{SourcesCanBeRun};

/// The memory program of a source can be run in its place: the verifier accepts it, and it carries instructions that can run and
/// mean what the source means. The limits are in their ranges, and suffice for the source.
pub fn sources_can_be_run()
    ensures { SourcesCanBeRun }
{}

/// The memory program of a source issues as many reads and writes for each worker as its summary says. The limits suffice for the
/// source.
pub fn plans_move_as_counted()
    ensures { PlansMoveAsCounted }
{}
