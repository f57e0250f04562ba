// What ties replacement to the schedule.
ghost use Rattle.mage_schedulable.specs.Bringing.{RuleListsBringOnce};
ghost use Rattle.mage_schedulable.specs.PlanOf.{PassesPlan};
ghost use Rattle.mage_schedulable.specs.Replacing.{RuleListsAreReplaced};
ghost use Rattle.mage_schedulable.specs.Planning.{PlansCarry, ProgramsCarry, SchedulesCarry};
ghost use Rattle.mage_schedulable.specs.Standing.{RuleListsFindPlaces};

/// The list of the replacement rule is one that the schedule takes: a page comes in new at most once, what is loaded was saved
/// and isn't in memory, and what is saved leaves at once and is loaded later.
pub fn rule_lists_are_replaced()
    ensures { RuleListsAreReplaced }
{}

/// In the list of the replacement rule each instruction finds its values at their places: the frame of each spot has the page of
/// the value, and its offset is that of the value's place.
pub fn rule_lists_find_places()
    ensures { RuleListsFindPlaces }
{}

/// In the list of the replacement rule each page of each step comes in new once, and no page twice.
pub fn rule_lists_bring_once()
    ensures { RuleListsBringOnce }
{}

/// A list that the replacement rule makes, for whatever victims, and that carries a worker's instructions with each transfer done
/// at once, is carried by its directives: scheduled and given store pages, they break no rule of the walk with slots, and leave
/// nothing over. The buffer has a slot, or the list needs none.
pub fn schedules_carry()
    ensures { SchedulesCarry }
{}

/// Where a worker's instructions can run, and neither the page nor the frames nor the buffer is too small for them, what the
/// passes make of them carries them: placed, replaced, scheduled and given store pages, each by its rule, the directives break no
/// rule of the walk with slots, and leave nothing over.
pub fn plans_carry()
    ensures { PlansCarry }
{}

/// Where each worker's directives break no rule, their memory program carries the program.
pub fn programs_carry()
    ensures { ProgramsCarry }
{}

/// What the passes make of the workers of a program is a plan of it, by a definition that knows no pass (`IsPlanOf`): it carries
/// the program; read off its directives, each instruction finds its values at the places of the rule of placement, each page of
/// the trace comes in new once, no plan of residency reads fewer pages, each read is issued in the gap of the formula, and the
/// transfers are on the homes of their pages. The instructions can run, and no limit is too low for them.
pub fn passes_plan()
    ensures { PassesPlan }
{}
