// What holds of all lists of the rule.
ghost use Rattle.mage_belady.specs.Rule.{RuleReadsLeast};

/// Proves that the rule's list reads least: its own sets of pages are a plan of residency that
/// reads as many pages as the list loads, and no plan for the trace with these frames reads fewer
/// (L. A. Belady, "A study of replacement algorithms for a virtual-storage computer", IBM Systems
/// Journal 5, 1966).
pub fn reads_least()
    ensures { RuleReadsLeast }
{}
