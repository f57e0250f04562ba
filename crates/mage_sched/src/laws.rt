// What holds of all schedules.
ghost use Rattle.mage_sched.specs.Scheduled.{HomesKeepTurns, ListsAreScheduled, OrderIsKept, SchedulesArePlain};

/// Proves that the directives of any list have its instructions and its writes, in their order.
pub fn order_is_kept()
    ensures { OrderIsKept }
{}

/// Proves that the directives of a list that the replacement rule makes are a schedule of it, in the pages' own numbers and with
/// store pages.
pub fn lists_are_scheduled()
    ensures { ListsAreScheduled }
{}

/// Proves that the directives of such a list, in the pages' own numbers, are the list itself where each write is done when it is
/// issued and each read when it is finished.
pub fn schedules_are_plain()
    ensures { SchedulesArePlain }
{}

/// Proves that directives in turn stay so with store pages, whatever list they came from, and are what they were with other
/// names of pages.
pub fn homes_keep_turns()
    ensures { HomesKeepTurns }
{}
