// What placement and replacement come to.
ghost use Rattle.mage_residency.specs.Carried.{RuleCarries};
ghost use Rattle.mage_residency.specs.Cut.{CutTransfersCarry, TransfersAtOnceCarry};
ghost use Rattle.mage_residency.specs.Renamed.{NamesDontMatter};

/// The list that the rule of replacement gives for the places and the trace of a list of instructions carries these: it can be
/// walked through from the first entry to the last, and does each instruction in its turn, with each argument where the job
/// says. The instructions can run, none of their values is too wide for a page, and each step fits the frames.
pub fn placed_and_replaced_carries()
    ensures { RuleCarries }
{}

/// Where each transfer of a worker's directives is in turn, and the directives, with each write done when it is issued and each
/// read when it is finished, carry the worker's instructions, they break no rule of the walk with slots, and leave nothing over.
pub fn cut_transfers_carry()
    ensures { CutTransfersCarry }
{}

/// And where such directives break no rule of the walk with slots, and leave nothing over, they carry the worker's instructions
/// with each write done when it is issued and each read when it is finished.
pub fn transfers_at_once_carry()
    ensures { TransfersAtOnceCarry }
{}

/// A list whose saves and loads name pages of a store in place of the pages carries instructions exactly where the list with the
/// pages does, where each load is of a store page that has the page: it was saved there, and nowhere else since.
pub fn names_of_pages_dont_matter()
    ensures { NamesDontMatter }
{}
