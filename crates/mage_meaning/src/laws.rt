// The law that ties the two meanings of a source together.
ghost use Rattle.mage_meaning.specs.Laws.{UnrolledMeansTheSame};

/// For every source without a fault, of 1 to 16 workers, and all inputs, the program that it
/// unrolls to gives each worker the outputs that the direct meaning gives: its instructions run in
/// the order of their emission. The call does nothing; its contract is the law.
pub fn unrolled_means_the_same()
    ensures { UnrolledMeansTheSame }
{}
