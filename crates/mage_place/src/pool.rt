// All pages of a program, and taking and freeing their places.
ghost use Rattle.std.specs.Prelude.{◌≡◌, ◌<◌, ◌≤◌, ◌*◌, ℕ, List, [], length, slice_get, IfOk, OnOk, IfSome, IfNone, true, false, ◌+◌};
ghost use Rattle.mage_instr.specs.declared.instr.TheConstants.{NEVER};
ghost use Rattle.mage_instr.specs.Opcodes.{IsWidth, greatest_width};
ghost use Rattle.mage_place.specs.Pools.{IsPool, IsPoolBut, Gives, TakesPlace, IsReused, IsAdded, Frees, IsOn, IsOfPage, is_open};

use crate::page::{Page, free_place, is_partly_taken, take_lowest};
use mage_base::Memory;
use mage_instr::{GREATEST_WIDTH, Place};
use std::alloc::Global;
use std::collections::BTreeSet;

/// All pages by their number, and for each class the pages with a live value and a free place.
#[derive(Drop)]
pub struct Pool {
    pub wires: u32,
    pub pages: Vec<Page>,
    pub open: Vec<BTreeSet<u32>>,
}

// No page. The lists of open pages go by class, from 0 to the greatest width.
pub fn no_pages(alloc: Global, wires: u32) -> Result<Pool, Memory>
    ensures pool { IfOk result IsPool }
    ensures wires { IfOk result (λ pool. pool.wires ≡ wires) }
    ensures pages { IfOk result (λ pool. pool.pages.items ≡ []) }
{
    let lists = usize::from(GREATEST_WIDTH) + 1;
    let mut open = Vec::with_capacity(alloc, lists)?;
    for _ in 0..lists {
        open.push(BTreeSet::new(alloc))?;
    }
    Ok(Pool {
        wires,
        pages: Vec::new(alloc),
        open,
    })
}

// A place for a value of this class.
pub fn take(pool: &mut Pool, alloc: Global, class: u8) -> Result<Place, Memory>
    requires pool { IsPool pool.old }
    requires class { IsWidth class }
    requires fits { class ≤ pool.old.wires }
    requires wires { pool.old.wires ≤ 65536 }
    requires few { length pool.old.pages.items < NEVER }
    ensures pool { OnOk result (IsPool pool.new) }
    ensures wires { OnOk result (pool.new.wires ≡ pool.old.wires) }
    ensures given { IfOk result
        (Gives pool.old.pages.items pool.new.pages.items pool.old.wires class) }
{
    match last_open(pool, class) {
        Some(page) => reuse(pool, page, class),
        None => add(pool, alloc, class),
    }
}

// The open page of a class with the highest number.
fn last_open(pool: &Pool, class: u8) -> Option<u32>
    requires pool { IsPool pool.now }
    requires class { class ≤ greatest_width }
    ensures some { IfSome result (λ q.
        is_open pool.now.wires pool.now.pages.items class q ≡ true) }
    ensures highest { IfSome result (λ q. (r : ℕ) → q < r
        → is_open pool.now.wires pool.now.pages.items class r ≡ false) }
    ensures none { IfNone result ((r : ℕ)
        → is_open pool.now.wires pool.now.pages.items class r ≡ false) }
{
    pool.open[usize::from(class)].last().copied()
}

// The lowest free place of an open page.
fn reuse(pool: &mut Pool, page: u32, class: u8) -> Result<Place, Memory>
    requires pool { IsPool pool.old }
    requires class { IsWidth class }
    requires fits { class ≤ pool.old.wires }
    requires wires { pool.old.wires ≤ 65536 }
    requires open { is_open pool.old.wires pool.old.pages.items class page ≡ true }
    ensures pool { OnOk result (IsPool pool.new) }
    ensures wires { OnOk result (pool.new.wires ≡ pool.old.wires) }
    ensures given { IfOk result
        (IsOfPage pool.old.pages.items pool.new.pages.items pool.old.wires class page) }
{
    let number = take_lowest(&mut pool.pages[page as usize], pool.wires);
    relist(pool, page)?;
    let offset = (number * u32::from(class)) as u16;
    Ok(Place { page, offset })
}

// The first place of a new page.
fn add(pool: &mut Pool, alloc: Global, class: u8) -> Result<Place, Memory>
    requires pool { IsPool pool.old }
    requires class { IsWidth class }
    requires fits { class ≤ pool.old.wires }
    requires wires { pool.old.wires ≤ 65536 }
    requires few { length pool.old.pages.items < NEVER }
    ensures pool { OnOk result (IsPool pool.new) }
    ensures wires { OnOk result (pool.new.wires ≡ pool.old.wires) }
    ensures count { OnOk result (length pool.new.pages.items ≡ length pool.old.pages.items + 1) }
    ensures place { IfOk result (λ place.
        (place.page ≡ length pool.old.pages.items) × (place.offset ≡ 0)) }
    ensures taken { OnOk result (TakesPlace pool.old.pages.items pool.new.pages.items
        pool.old.wires class (length pool.old.pages.items) 0) }
{
    let page = pool.pages.len() as u32;
    pool.pages.push(Page {
        class,
        next: 1,
        freed: BTreeSet::new(alloc),
    })?;
    relist(pool, page)?;
    Ok(Place { page, offset: 0 })
}

// Frees a place, if it is taken.
pub fn free(pool: &mut Pool, place: Place) -> Result<(), Memory>
    requires pool { IsPool pool.old }
    requires place { IsOn pool.old.pages.items place }
    ensures pool { OnOk result (IsPool pool.new) }
    ensures wires { OnOk result (pool.new.wires ≡ pool.old.wires) }
    ensures freed { OnOk result (Frees pool.old.pages.items pool.new.pages.items place) }
{
    let page = &mut pool.pages[place.page as usize];
    let number = u32::from(place.offset) / u32::from(page.class);
    free_place(page, pool.wires, number)?;
    relist(pool, place.page)
}

// Lists a page among the open ones of its class exactly where it is one.
fn relist(pool: &mut Pool, page: u32) -> Result<(), Memory>
    requires pool { IsPoolBut pool.old page }
    requires page { page < length pool.old.pages.items }
    ensures pool { OnOk result (IsPool pool.new) }
    ensures pages { pool.new.pages.items ≡ pool.old.pages.items }
    ensures wires { pool.new.wires ≡ pool.old.wires }
{
    let changed = &pool.pages[page as usize];
    let open = is_partly_taken(changed, pool.wires);
    let class = usize::from(changed.class);
    if open {
        pool.open[class].insert(page)?;
    } else {
        pool.open[class].remove(&page);
    }
    Ok(())
}
