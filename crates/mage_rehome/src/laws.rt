// What holds of memory programs whose pages are renamed.
ghost use Rattle.mage_rehome.specs.Earlier.{EarlierPlansComeToTodays, EarlierPlansAreAccepted};
ghost use Rattle.mage_rehome.specs.Rehomed.{RenamingKeepsCarried, RenamingMakesNoFault};

/// A memory program without a fault carries a program exactly where the one with store pages does, whoever made it and whatever
/// its pages are used for.
pub fn renaming_keeps_carried()
    ensures { RenamingKeepsCarried }
{}

/// A memory program without a fault has none with store pages: the verifier finds nothing wrong with it.
pub fn renaming_makes_no_fault()
    ensures { RenamingMakesNoFault }
{}

/// The memory program that the passes made of a program when each page was stored under its own number comes to the one that they
/// make now.
pub fn earlier_plans_come_to_todays()
    ensures { EarlierPlansComeToTodays }
{}

/// The verifier accepts what the passes made of a program when each page was stored under its own number: each of its fields is in
/// its range, and it has no fault. The program's workers are linked, the limits are in their ranges and suffice for each worker,
/// there are 1 to 16 workers, and no more instructions than a store may have pages.
pub fn earlier_plans_are_accepted()
    ensures { EarlierPlansAreAccepted }
{}
