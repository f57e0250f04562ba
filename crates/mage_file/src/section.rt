use mage_instr::Directive;
use sqlite_items::Items;

/// A worker's part of a file: how many pages its store has, and what it does.
#[derive(Debug, Drop)]
pub struct Section {
    pub pages: u32,
    pub directives: Items<Directive>,
}
