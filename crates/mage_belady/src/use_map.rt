// The pages that may leave, in the order in which they do: an ordered map.
ghost use Rattle.std.specs.Prelude.{◌≡◌, ◌+◌, ◌-◌, ◌&&◌, ℕ, nat_eq, Some, None, if◌then◌else◌, OnOk, IfNone, IfSome};
ghost use Rattle.mage_instr.specs.declared.instr.TheConstants.{NEVER};
ghost use Rattle.mage_belady.specs.Uses.{frame_at, IsLast};

use crate::steps::Steps;
use mage_base::Memory;
use std::alloc::Global;
use std::collections::BTreeMap;
use std::sync::ledger::Ledger;

/// A page in memory.
#[derive(Clone, Copy, Debug, PartialEq, Eq)]
pub(crate) struct Listed {
    /// The step that uses it next, or `NEVER`.
    pub next: u32,
    pub page: u32,
    pub frame: u16,
}

/// The frame of each page that is listed, under its next use. The greatest key is that of the page
/// which leaves first: a later use is greater, and of one use the lower page. Each call but `new`
/// is one step.
#[derive(Drop)]
pub(crate) struct UseMap {
    frames: BTreeMap<(u32, u32), u16>,
}

// The key of a page.
fn key(next: u32, page: u32) -> (u32, u32)
    ensures { result ≡ (next, NEVER - page) }
{
    (next, u32::MAX - page)
}

impl UseMap {
    pub(crate) fn new(alloc: Global) -> UseMap
        ensures { (n page : ℕ) → frame_at result n page ≡ None }
    {
        UseMap {
            frames: BTreeMap::new(alloc),
        }
    }

    /// Lists a page.
    pub(crate) fn insert<L: Ledger>(
        &mut self,
        listed: Listed,
        steps: &mut Steps<L>,
    ) -> Result<(), Memory>
        ensures counted { steps.new ≡ steps.old + 1 }
        ensures listed { OnOk result ((n page : ℕ) → frame_at self.new n page
            ≡ (if nat_eq n listed.next && nat_eq page listed.page then Some listed.frame
            else frame_at self.old n page)) }
    {
        steps.tick();
        self.frames
            .insert(key(listed.next, listed.page), listed.frame)?;
        Ok(())
    }

    /// Takes out a page that is used next at a step, and answers its frame, where it is listed so.
    pub(crate) fn remove<L: Ledger>(
        &mut self,
        next: u32,
        page: u32,
        steps: &mut Steps<L>,
    ) -> Option<u16>
        ensures counted { steps.new ≡ steps.old + 1 }
        ensures frame { result ≡ frame_at self.old next page }
        ensures removed { (n other : ℕ) → frame_at self.new n other
            ≡ (if nat_eq n next && nat_eq other page then None else frame_at self.old n other) }
    {
        steps.tick();
        self.frames.remove(&key(next, page))
    }

    /// Takes out the page that leaves first.
    pub(crate) fn take_greatest<L: Ledger>(&mut self, steps: &mut Steps<L>) -> Option<Listed>
        ensures counted { steps.new ≡ steps.old + 1 }
        ensures none { IfNone result ((n page : ℕ) → frame_at self.old n page ≡ None) }
        ensures last { IfSome result (IsLast self.old) }
        ensures removed { IfSome result (λ last. (n page : ℕ) → frame_at self.new n page
            ≡ (if nat_eq n last.next && nat_eq page last.page then None
            else frame_at self.old n page)) }
    {
        steps.tick();
        let ((next, flipped), frame) = self.frames.pop_last()?;
        let page = u32::MAX - flipped;
        Some(Listed { next, page, frame })
    }
}
