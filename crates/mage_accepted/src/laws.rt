// What the verifier says of memory programs that carry a program.
ghost use Rattle.mage_accepted.specs.Accepting.{CarryingPartsHaveNoFault, CarryingPlansHaveNoFault, PassedPlansAreAccepted, PassedPlansAreShort};

/// A worker's directives that break no rule of the walk, and leave nothing over, have no fault by themselves: each index is in
/// range, each slot does what is asked of it, each page that is transferred stands still, and each that is read was stored.
pub fn carrying_parts_have_no_fault()
    ensures { CarryingPartsHaveNoFault }
{}

/// A memory program that carries a program whose workers are linked has no fault: each part has none by itself, no worker waits
/// for ever, and each value is received in the width in which it is sent.
pub fn carrying_plans_have_no_fault()
    ensures { CarryingPlansHaveNoFault }
{}

/// What the passes make of a program whose workers are linked is accepted: each field of the memory program is in its range, and
/// it has no fault. The limits are in their ranges and suffice for each worker, there are 1 to 16 workers, and no more
/// instructions than a store may have pages.
pub fn passed_plans_are_accepted()
    ensures { PassedPlansAreAccepted }
{}

/// What the passes make of a program whose workers are linked is short: all workers' directives together are at most 18 for each
/// of its instructions. The limits suffice for each worker.
pub fn passed_plans_are_short()
    ensures { PassedPlansAreShort }
{}
