// One page: which of its places are taken.
ghost use Rattle.std.specs.Prelude.{◌≡◌, ◌<◌, ◌≤◌, ◌==◌, ◌||◌, ◌&&◌, ◌/◌, ℕ, true, false, not, nat_lt, OnOk};
ghost use Rattle.mage_place.specs.Pages.{IsPage, is_taken_on, is_used, has_room};

use mage_base::Memory;
use std::collections::BTreeSet;

/// A page: the places from `next` on were never taken, and those in `freed` are free again.
#[derive(Drop)]
pub struct Page {
    pub class: u8,
    pub next: u32,
    pub freed: BTreeSet<u32>,
}

// Takes the lowest free place.
pub fn take_lowest(page: &mut Page, wires: u32) -> u32
    requires ok { IsPage wires page.old }
    requires room { has_room wires page.old ≡ true }
    ensures ok { IsPage wires page.new }
    ensures within { result < wires / page.old.class }
    ensures free { is_taken_on page.old result ≡ false }
    ensures lowest { (k : ℕ) → k < result → is_taken_on page.old k ≡ true }
    ensures taken { (k : ℕ) → is_taken_on page.new k
        ≡ (is_taken_on page.old k || (k == result)) }
    ensures class { page.new.class ≡ page.old.class }
{
    match page.freed.pop_first() {
        Some(lowest) => lowest,
        None => {
            let lowest = page.next;
            page.next += 1;
            lowest
        }
    }
}

// Frees a place, if it is taken.
pub fn free_place(page: &mut Page, wires: u32, place: u32) -> Result<(), Memory>
    requires { IsPage wires page.old }
    ensures ok { OnOk result (IsPage wires page.new) }
    ensures taken { OnOk result ((k : ℕ) → is_taken_on page.new k
        ≡ (is_taken_on page.old k && not (k == place))) }
    ensures class { OnOk result (page.new.class ≡ page.old.class) }
{
    if place < page.next {
        page.freed.insert(place)?;
    }
    Ok(())
}

// Whether some place is taken, and some place is free.
pub fn is_partly_taken(page: &Page, wires: u32) -> bool
    requires { IsPage wires page.now }
    ensures { result ≡ (is_used page.now && has_room wires page.now) }
{
    let taken = page.freed.len() < page.next as usize;
    taken && (!page.freed.is_empty() || page.next < wires / u32::from(page.class))
}
