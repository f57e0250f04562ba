use crate::slot::Slot;
use mage_instr::Directive;

/// Directives under way.
#[derive(Debug, Drop)]
pub struct Slots {
    /// What was emitted.
    pub list: Vec<Directive>,
    /// What each slot does then.
    pub table: Vec<Slot>,
    /// The slots that write, in the order in which their writes were issued.
    pub writes: Vec<u16>,
}
