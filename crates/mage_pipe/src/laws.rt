// What holds of all summaries and plans.
ghost use Rattle.mage_pipe.specs.Agreeing.{PlansFailAsCosts};
ghost use Rattle.mage_pipe.specs.Least.{ReadsAreLeast};

/// Proves that the reads of a worker's statistics are the fewest that any plan of residency for its trace has: some plan
/// reads as many pages, and none reads fewer (L. A. Belady, "A study of replacement algorithms for a virtual-storage
/// computer", IBM Systems Journal 5, 1966).
pub fn reads_are_least()
    ensures { ReadsAreLeast }
{}

/// Proves that a plan and its costs fail alike: by their definitions the memory program of a program is wanting just where its
/// costs are, and for the same reason.
pub fn plans_fail_as_costs()
    ensures { PlansFailAsCosts }
{}
