// Which page of the store each page is kept in.
ghost use Rattle.std.specs.Prelude.{◌≡◌, ◌≤◌, ◌<◌, ◌∷◌, ℕ, List, Option, Some, None, length, unwrap_or, if◌then◌else◌, nat_eq, true, false, IfOk, IfNone, IfSome, OnOk};
ghost use Rattle.std.specs.List.{position};
ghost use Rattle.std.specs.HashMap.{get};
ghost use Rattle.mage_instr.specs.declared.directive.Directive.{Directive};
ghost use Rattle.mage_sched.specs.Homes.{Store, empty_store, is_free, names, taken, housed, let_go, home_of, last_of, at_finish, store_after, renamed, homed_of};
ghost use Rattle.mage_sched.specs.Scheduled.{IsHomed};
ghost use Rattle.mage_sched.specs.Turns.{AreInTurn, at_rest};
ghost use Rattle.mage_sched.specs.Views.{count_in, is_in, AreFree, IsTaken, Keeps, holders_after, ends_after};

use crate::transfers::{take_one, transfers_of};
use mage_base::Memory;
use mage_instr::Directive;
use std::alloc::Global;
use std::collections::{BTreeSet, HashMap};

/// Which page of the store each page is kept in, between two directives.
#[derive(Debug, Drop)]
pub(crate) struct Homes {
    /// The store page that each page holds.
    held: HashMap<u32, u32>,
    /// The store pages below `count` that no page holds.
    free: BTreeSet<u32>,
    /// The greatest number of store pages held at once so far.
    count: u32,
    /// How many transfers of each page are still to come.
    left: HashMap<u32, usize>,
    /// The page that lets its store page go at the finish of a slot's transfer.
    ends: HashMap<u16, u32>,
}

// Takes out the lowest of some store pages.
fn take_lowest(free: &mut BTreeSet<u32>) -> Option<u32>
    ensures none { IfNone result ((home : ℕ) → is_in free.old home ≡ false) }
    ensures same { IfNone result ((home : ℕ) → is_in free.new home ≡ is_in free.old home) }
    ensures member { IfSome result (λ lowest. is_in free.old lowest ≡ true) }
    ensures lowest { IfSome result (λ lowest. (home : ℕ) → is_in free.old home ≡ true
        → lowest ≤ home) }
    ensures others { IfSome result (λ lowest. (home : ℕ) → is_in free.new home
        ≡ (if nat_eq lowest home then false else is_in free.old home)) }
{
    let lowest = free.pop_first()?;
    Some(lowest)
}

// The page itself, where no transfer of it is left.
fn unless_left(left: usize, page: u32) -> Option<u32>
    ensures { result ≡ (if nat_eq left 0 then Some page else None) }
{
    if left == 0 { Some(page) } else { None }
}

impl Homes {
    // No page holds a store page before these directives.
    fn new(alloc: Global, directives: &[Directive]) -> Result<Homes, Memory>
        ensures { IfOk result (λ homes. Keeps homes empty_store directives.now) }
    {
        Ok(Homes {
            held: HashMap::new(alloc),
            free: BTreeSet::new(alloc),
            count: 0,
            left: transfers_of(alloc, directives)?,
            ends: HashMap::new(alloc),
        })
    }

    // The lowest store page that no page holds, which isn't free any more.
    fn take_home(&mut self) -> Result<u32, Memory>
        ensures held { (page : ℕ) → get nat_eq self.new.held page ≡ get nat_eq self.old.held page }
        ensures left { (page : ℕ) → count_in self.new.left page ≡ count_in self.old.left page }
        ensures ends { (slot : ℕ) → get nat_eq self.new.ends slot ≡ get nat_eq self.old.ends slot }
        ensures taken { (holders : List (Option ℕ)) → AreFree self.old holders
            → IfOk result (λ home. (page : ℕ) → IsTaken self.new home page holders) }
    {
        match take_lowest(&mut self.free) {
            Some(home) => Ok(home),
            None => {
                let home = self.count;
                if home == u32::MAX {
                    return Err(Memory);
                }
                self.count = home + 1;
                Ok(home)
            }
        }
    }

    // A page that holds none takes the lowest store page that no page holds.
    fn take(&mut self, page: u32) -> Result<(), Memory>
        requires { get nat_eq self.old.held page ≡ None }
        ensures { (store : Store) (later : List Directive) → Keeps self.old store later
            → OnOk result (Keeps self.new (holders_after store (taken (position is_free store.holders) page store.holders)) later) }
    {
        let home = self.take_home()?;
        self.held.insert(page, home)?;
        Ok(())
    }

    // A page holds a store page from now on.
    fn house(&mut self, page: u32) -> Result<(), Memory>
        ensures { (store : Store) (later : List Directive) → Keeps self.old store later
            → OnOk result (Keeps self.new (holders_after store (housed page store.holders)) later) }
    {
        match self.held.get(&page).copied() {
            Some(_) => Ok(()),
            None => self.take(page),
        }
    }

    // The store page that a page holds, or 0 where it holds none.
    fn home(&self, page: u32) -> u32
        ensures { (store : Store) (later : List Directive) → Keeps self.now store later
            → result ≡ unwrap_or (home_of store.holders page) 0 }
    {
        self.held.get(&page).copied().unwrap_or(0)
    }

    // A page, or none, lets its store page go at the finish of a slot's transfer.
    fn end_with(&mut self, slot: u16, page: Option<u32>) -> Result<(), Memory>
        ensures held { (page : ℕ) → get nat_eq self.new.held page ≡ get nat_eq self.old.held page }
        ensures free { (home : ℕ) → is_in self.new.free home ≡ is_in self.old.free home }
        ensures count { self.new.count ≡ self.old.count }
        ensures left { (page : ℕ) → count_in self.new.left page ≡ count_in self.old.left page }
        ensures ends { OnOk result ((other : ℕ) → get nat_eq self.new.ends other
            ≡ (if nat_eq slot other then page else get nat_eq self.old.ends other)) }
    {
        match page {
            Some(page) => {
                self.ends.insert(slot, page)?;
            }
            None => {
                self.ends.remove(&slot);
            }
        }
        Ok(())
    }

    // A transfer of a page is issued in a slot.
    fn begin(&mut self, slot: u16, page: u32) -> Result<(), Memory>
        ensures { (store : Store) (one : Directive) (later : List Directive) → ((other : ℕ)
            → names one other ≡ nat_eq page other)
            → Keeps self.old store (one ∷ later)
            → OnOk result (Keeps self.new (ends_after store (at_finish slot (last_of later page) store.ends)) later) }
    {
        let left = take_one(&mut self.left, page)?;
        let ends = unless_left(left, page);
        self.end_with(slot, ends)?;
        Ok(())
    }

    // A page, or none, lets its store page go.
    fn let_go(&mut self, page: Option<u32>) -> Result<(), Memory>
        ensures { (store : Store) (later : List Directive) → Keeps self.old store later
            → OnOk result (Keeps self.new (holders_after store (let_go page store.holders)) later) }
    {
        let Some(page) = page else {
            return Ok(());
        };
        let Some(home) = self.held.remove(&page) else {
            return Ok(());
        };
        self.free.insert(home)?;
        Ok(())
    }

    // A slot's transfer is finished.
    fn finish(&mut self, slot: u16) -> Result<(), Memory>
        ensures { (store : Store) (later : List Directive) → Keeps self.old store later
            → OnOk result (Keeps self.new (ends_after (holders_after store (let_go (store.ends slot) store.holders))
            (at_finish slot None store.ends)) later) }
    {
        let page = self.ends.get(&slot).copied();
        self.let_go(page)?;
        self.end_with(slot, None)?;
        Ok(())
    }

    // A directive with its store page.
    fn rename(&mut self, directive: Directive) -> Result<Directive, Memory>
        ensures one { (store : Store) (later : List Directive)
            → Keeps self.old store (directive ∷ later)
            → IfOk result (λ one. one ≡ renamed directive (store_after directive later store).holders) }
        ensures keeps { (store : Store) (later : List Directive)
            → Keeps self.old store (directive ∷ later)
            → OnOk result (Keeps self.new (store_after directive later store) later) }
    {
        match directive {
            Directive::IssueIn { slot, page } => {
                self.begin(slot, page)?;
                let page = self.home(page);
                Ok(Directive::IssueIn { slot, page })
            }
            Directive::IssueOut { slot, frame, page } => {
                self.house(page)?;
                self.begin(slot, page)?;
                let page = self.home(page);
                Ok(Directive::IssueOut { slot, frame, page })
            }
            Directive::FinishIn { slot, .. } => {
                self.finish(slot)?;
                Ok(directive)
            }
            Directive::FinishOut { slot } => {
                self.finish(slot)?;
                Ok(directive)
            }
            Directive::Fresh { .. } => Ok(directive),
            Directive::Do(_) => Ok(directive),
        }
    }
}

/// The directives of a worker with store pages in place of the pages that their transfers name, and how many store pages
/// there are.
///
/// A page takes at its first `IssueOut` the lowest store page that no page holds. It holds it until the finish of the last
/// transfer that names it. The number is the greatest that is held at once. An `IssueIn` of a page that holds none, which no
/// plan has, names store page 0. Directives in turn stay so, with the same reads, issued in the same gaps.
///
/// `Memory` where there is none, or where there would be more than `u32::MAX` store pages.
pub fn homed(alloc: Global, directives: &[Directive]) -> Result<(Vec<Directive>, u32), Memory>
    ensures list { IfOk result (λ homed. homed.0.items ≡ (homed_of directives.now).directives) }
    ensures count { IfOk result (λ homed. homed.1 ≡ (homed_of directives.now).count) }
    ensures kept { (buffer : ℕ) → AreInTurn buffer at_rest directives.now
        → IfOk result (λ homed. IsHomed buffer directives.now homed.1 homed.0.items) }
{
    let mut homes = Homes::new(alloc, directives)?;
    let mut list = Vec::with_capacity(alloc, directives.len())?;
    for k in 0..directives.len() {
        list.push(homes.rename(directives[k])?)?;
    }
    Ok((list, homes.count))
}

#[cfg(test)]
mod tests;
