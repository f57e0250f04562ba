// What is kept while the pages of the steps come in, step by step.
ghost use Rattle.std.specs.Prelude.{◌≡◌, ◌<◌, ◌≤◌, ◌+◌, ◌*◌, ◌&&◌, ◌||◌, ℕ, [], length, nat_eq, not, Some, None, true, false, OnOk, IfOk, if◌then◌else◌, slice_index, slice_index_or};
ghost use Rattle.std.specs.HashSet.{contains};
ghost use Rattle.mage_instr.specs.declared.instr.TheConstants.{NEVER};
ghost use Rattle.mage_instr.specs.Trace.{IsStep, pages_of};
ghost use Rattle.mage_belady.specs.Plan.{is_in};
ghost use Rattle.mage_belady.specs.Rule.{resident};
ghost use Rattle.mage_belady.specs.Uses.{frame_at};
ghost use Rattle.mage_belady.specs.Kept.{AreBeside, AreFound, Moment, Keeps, before, any_page, outside, frame_if, comes_into, TakesFree, TakesOver, Brings, IsServed};

use crate::steps::Steps;
use crate::use_map::{Listed, UseMap};
use mage_base::Memory;
use mage_instr::{NEVER, Replaced, Step};
use std::alloc::Global;
use std::collections::HashSet;
use std::sync::ledger::Ledger;

/// A list under way.
#[derive(Drop)]
pub(crate) struct Paging {
    /// What was emitted.
    pub list: Vec<Replaced>,
    /// Of each frame in use, whether a result was put in its page that isn't kept outside.
    pub dirty: Vec<bool>,
    /// The pages in memory; while a step is served, those that it hasn't.
    pub uses: UseMap,
    /// The pages that came in so far.
    pub seen: HashSet<u32>,
}

// A page comes into a frame: `again` where a step before had it.
fn coming(again: bool, frame: u16, page: u32) -> Replaced
    ensures { result ≡ comes_into again frame page }
{
    if again {
        Replaced::Load { frame, page }
    } else {
        Replaced::Fresh { frame, page }
    }
}

// A page comes in, which may have come in before: whether it has.
fn note(seen: &mut HashSet<u32>, page: u32) -> Result<bool, Memory>
    ensures again { IfOk result (λ again. again ≡ contains nat_eq seen.old page) }
    ensures seen { OnOk result ((q : ℕ) → contains nat_eq seen.new q
        ≡ (contains nat_eq seen.old q || nat_eq q page)) }
{
    Ok(!seen.insert(page)?)
}

// The pages of step t are taken out: the frames of those that were listed.
fn take_out<L: Ledger>(
    uses: &mut UseMap,
    step: Step,
    t: u32,
    steps: &mut Steps<L>,
) -> [Option<u16>; 4]
    requires { IsStep step }
    ensures counted { steps.new ≤ steps.old + step.count }
    ensures found { (k : ℕ) → k < step.count
        → slice_index_or result k None ≡ frame_at uses.old t (slice_index step.pages k) }
    ensures gone { (n page : ℕ) → frame_at uses.new n page
        ≡ (if nat_eq n t && is_in page (pages_of step) then None else frame_at uses.old n page) }
{
    let mut found = [None; 4];
    for k in 0..usize::from(step.count) {
        found[k] = uses.remove(t, step.pages[k], steps);
    }
    found
}

// The pages of a step are put in, each with its frame under its next use.
fn put_in<L: Ledger>(
    uses: &mut UseMap,
    step: Step,
    next: [u32; 4],
    at: [u16; 4],
    steps: &mut Steps<L>,
) -> Result<(), Memory>
    requires { IsStep step }
    ensures counted { steps.new ≤ steps.old + step.count }
    ensures listed { (after stands : ℕ → ℕ) → AreBeside step next after → AreBeside step at stands
        → OnOk result ((n page : ℕ) → frame_at uses.new n page
        ≡ (if is_in page (pages_of step) && nat_eq n (after page) then Some (stands page)
        else frame_at uses.old n page)) }
{
    for k in 0..usize::from(step.count) {
        let listed = Listed {
            next: next[k],
            page: step.pages[k],
            frame: at[k],
        };
        uses.insert(listed, steps)?;
    }
    Ok(())
}

impl Paging {
    pub(crate) fn new(alloc: Global) -> Paging
        ensures list { result.list.items ≡ [] }
        ensures dirty { result.dirty.items ≡ [] }
        ensures uses { (n page : ℕ) → frame_at result.uses n page ≡ None }
        ensures seen { (page : ℕ) → contains nat_eq result.seen page ≡ false }
    {
        Paging {
            list: Vec::new(alloc),
            dirty: Vec::new(alloc),
            uses: UseMap::new(alloc),
            seen: HashSet::new(alloc),
        }
    }

    // A page comes into the lowest free frame: which that is.
    fn take_free(&mut self, again: bool, page: u32) -> Result<u16, Memory>
        requires { length self.old.dirty.items < 65536 }
        ensures { IfOk result (TakesFree self.old self.new again page) }
    {
        let frame = self.dirty.len() as u16;
        self.dirty.push(false)?;
        self.list.push(coming(again, frame, page))?;
        Ok(frame)
    }

    // A page comes into the frame of another, which is saved where it has to be: which that is.
    fn take_over(&mut self, last: Listed, again: bool, page: u32) -> Result<u16, Memory>
        requires { last.frame < length self.old.dirty.items }
        ensures { IfOk result (TakesOver self.old self.new last again page) }
    {
        let Listed {
            next,
            page: victim,
            frame,
        } = last;
        if self.dirty[usize::from(frame)] && next != NEVER {
            self.list.push(Replaced::Save {
                frame,
                page: victim,
            })?;
        }
        self.dirty[usize::from(frame)] = false;
        self.list.push(coming(again, frame, page))?;
        Ok(frame)
    }

    // Page k of a step, which isn't in memory, comes in: its frame.
    fn bring<L: Ledger>(
        &mut self,
        step: Step,
        k: usize,
        frames: u32,
        steps: &mut Steps<L>,
    ) -> Result<u16, Memory>
        requires step { IsStep step }
        requires within { k < step.count }
        requires frames { frames ≤ 65536 }
        requires few { length (pages_of step) ≤ frames }
        requires kept { (m : Moment) × Keeps frames m (outside (pages_of step)) self.old
            × (is_in (slice_index step.pages k) (resident m.held) ≡ false) }
        ensures counted { steps.new ≤ steps.old + 1 }
        ensures brings { (m : Moment) → Keeps frames m (outside (pages_of step)) self.old
            → is_in (slice_index step.pages k) (resident m.held) ≡ false
            → IfOk result
            (Brings frames (pages_of step) (slice_index step.pages k) m self.old self.new) }
    {
        let page = step.pages[k];
        let again = note(&mut self.seen, page)?;
        if (self.dirty.len() as u64) < frames as u64 {
            self.take_free(again, page)
        } else {
            let last = self.uses.take_greatest(steps).unwrap();
            self.take_over(last, again, page)
        }
    }

    // Page k of a step comes in, where it wasn't found in memory: its frame.
    fn visit<L: Ledger>(
        &mut self,
        step: Step,
        k: usize,
        found: Option<u16>,
        frames: u32,
        steps: &mut Steps<L>,
    ) -> Result<u16, Memory>
        requires step { IsStep step }
        requires within { k < step.count }
        requires frames { frames ≤ 65536 }
        requires few { length (pages_of step) ≤ frames }
        requires kept { (m : Moment) × Keeps frames m (outside (pages_of step)) self.old
            × (found ≡ frame_if (slice_index step.pages k) (resident m.held)) }
        ensures counted { steps.new ≤ steps.old + 1 }
        ensures brings { (m : Moment) → Keeps frames m (outside (pages_of step)) self.old
            → found ≡ frame_if (slice_index step.pages k) (resident m.held)
            → IfOk result
            (Brings frames (pages_of step) (slice_index step.pages k) m self.old self.new) }
    {
        match found {
            Some(frame) => Ok(frame),
            None => self.bring(step, k, frames, steps),
        }
    }

    // The pages of a step come in, those that were not found in memory: the frames of all.
    fn bring_missing<L: Ledger>(
        &mut self,
        step: Step,
        found: [Option<u16>; 4],
        frames: u32,
        steps: &mut Steps<L>,
    ) -> Result<[u16; 4], Memory>
        requires step { IsStep step }
        requires frames { frames ≤ 65536 }
        requires few { length (pages_of step) ≤ frames }
        requires kept { (m : Moment) × Keeps frames m (outside (pages_of step)) self.old
            × AreFound step found (resident m.held) }
        ensures counted { steps.new ≤ steps.old + step.count }
        ensures served { (m : Moment) → Keeps frames m (outside (pages_of step)) self.old
            → AreFound step found (resident m.held)
            → IfOk result (IsServed frames step m (outside (pages_of step)) self.old self.new) }
    {
        let mut at = [0; 4];
        for k in 0..usize::from(step.count) {
            at[k] = self.visit(step, k, found[k], frames, steps)?;
        }
        Ok(at)
    }

    /// The pages of step t come in, those that are not in memory. The answer is the frame of each
    /// page of the step.
    pub(crate) fn serve<L: Ledger>(
        &mut self,
        step: Step,
        t: u32,
        next: [u32; 4],
        frames: u32,
        steps: &mut Steps<L>,
    ) -> Result<[u16; 4], Memory>
        requires step { IsStep step }
        requires frames { frames ≤ 65536 }
        requires few { length (pages_of step) ≤ frames }
        requires kept { (m : Moment) × Keeps frames (before step t m) any_page self.old }
        ensures counted { steps.new ≤ steps.old + 3 * step.count }
        ensures served { (m : Moment) → Keeps frames (before step t m) any_page self.old
            → AreBeside step next m.next
            → IfOk result (IsServed frames step m any_page self.old self.new) }
    {
        let found = take_out(&mut self.uses, step, t, steps);
        let at = self.bring_missing(step, found, frames, steps)?;
        put_in(&mut self.uses, step, next, at, steps)?;
        Ok(at)
    }
}
