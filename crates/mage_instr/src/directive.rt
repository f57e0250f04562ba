// Memory programs.
use crate::{Job, Limits};
use sqlite_items::Items;

/// One entry of a worker's part of a memory program. The pages of transfers are pages of the worker's store, which are
/// numbered apart from those that `Fresh` names.
#[derive(Clone, Copy, Debug, PartialEq, Eq)]
pub enum Directive {
    /// The frame takes a page that no entry named before.
    Fresh { frame: u16, page: u32 },
    /// The slot begins to read the store page.
    IssueIn { slot: u16, page: u32 },
    /// The frame takes what the slot read.
    FinishIn { slot: u16, frame: u16 },
    /// The slot begins to write what the frame holds to the store page.
    IssueOut { slot: u16, frame: u16, page: u32 },
    /// The slot has written its store page.
    FinishOut { slot: u16 },
    /// An instruction is done.
    Do(Job),
}

/// A memory program: what each worker does within these limits, and how many pages its store has.
#[derive(Debug, Drop)]
pub struct MemProgram {
    pub limits: Limits,
    /// The number of store pages of each worker.
    pub stores: Items<u32>,
    pub workers: Items<Items<Directive>>,
}
