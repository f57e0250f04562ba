// What the driver puts out over a whole program.
ghost use Rattle.mage_eval.specs.Laws.{PutsOutTheDecoded};

/// Over a program each worker's driver puts out what is decoded from the labels that it was dealt and what its source has left.
pub fn law_of_outputs()
    ensures { PutsOutTheDecoded }
{}
