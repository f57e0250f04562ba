// The places of results, and the pages that instructions need.
ghost use Rattle.std.specs.Prelude.{◌≡◌, ◌<◌, ◌≤◌, ℕ, length, IsTrue, IfOk, OnOk, MatchBool, None, false, Contains, take};
ghost use Rattle.mage_instr.specs.Limits.{IsPageSize};
ghost use Rattle.mage_instr.specs.Opcodes.{IsWidth, arity_of, has_result, width_of_result};
ghost use Rattle.mage_instr.specs.declared.instr.TheConstants.{NEVER};
ghost use Rattle.mage_instr.specs.Sound.{IsSound};
ghost use Rattle.mage_instr.specs.Trace.{IsTrace};
ghost use Rattle.mage_place.specs.Live.{class_of_result, values_touched_by};
ghost use Rattle.mage_place.specs.Places.{ArePlaces, nowhere, place_of, next_page};
ghost use Rattle.mage_place.specs.Placing.{places_of, trace_of};
ghost use Rattle.mage_place.specs.Steps.{AreSteps};
ghost use Rattle.mage_place.specs.TooWide.{is_too_wide, page_tight};
ghost use Rattle.mage_place.specs.Pools.{IsPool, IsOn, Gives, FreesEnded};

use crate::class_of;
use crate::last::last_uses;
use crate::pool::{Pool, free, no_pages, take};
use crate::steps::trace_of;
use crate::touched::touched_values;
use mage_base::Memory;
use mage_instr::{Instr, Place, Step, result_width};
use std::alloc::Global;

/// The place of each result in pages of `page` wires, and the pages that each instruction needs: one place and one
/// step for each instruction, in order. An instruction without a result has page 0 and wire 0 as its place. The
/// pages of a step ascend and differ, and 0 stands behind them.
///
/// A result goes to the open page of its class with the highest number, at its lowest free place. A page is open
/// where a live value stands on it and a place is free. Where no page is open, a new one is made, with the next
/// number from 0. So a page without a live value is never taken again, and there are at most as many pages as
/// instructions.
///
/// `instrs` is a list that can run, `page` is a power of two from 64 to 65,536, and each value fits a page
/// (`page_tight`). The one error is want of memory,
/// and no clause says when it comes, nor how long the call takes.
pub fn place(alloc: Global, instrs: &[Instr], page: u32) -> Result<(Vec<Place>, Vec<Step>), Memory>
    requires sound { IsSound instrs.now }
    requires page { IsPageSize page }
    requires fits { page_tight page instrs.now ≡ None }
    ensures places { IfOk result (λ placed. ArePlaces instrs.now page placed.0.items) }
    ensures steps { IfOk result (λ placed. AreSteps instrs.now placed.0.items placed.1.items) }
    ensures trace { IfOk result (λ placed. IsTrace placed.1.items) }
    ensures placed { IfOk result (λ placed. placed.0.items ≡ places_of instrs.now page) }
    ensures traced { IfOk result (λ placed.
        placed.1.items ≡ trace_of instrs.now (places_of instrs.now page)) }
    ensures few { IfOk result (λ placed. next_page placed.0.items ≤ length instrs.now) }
{
    let places = places_of(alloc, instrs, page)?;
    let trace = trace_of(alloc, instrs, &places)?;
    Ok((places, trace))
}

// The place of each result.
fn places_of(alloc: Global, instrs: &[Instr], page: u32) -> Result<Vec<Place>, Memory>
    requires sound { IsSound instrs.now }
    requires page { IsPageSize page }
    requires fits { page_tight page instrs.now ≡ None }
    ensures places { IfOk result (λ places. ArePlaces instrs.now page places.items) }
    ensures few { IfOk result (λ places. next_page places.items ≤ length instrs.now) }
{
    let last = last_uses(alloc, instrs)?;
    let mut pool = no_pages(alloc, page)?;
    let mut places = Vec::with_capacity(alloc, instrs.len())?;
    for (t, instr) in instrs.iter().enumerate() {
        let place = place_result(&mut pool, alloc, *instr)?;
        places.push(place)?;
        free_ended(&mut pool, &places, &last, *instr, t as u32)?;
    }
    Ok(places)
}

// A place for the result of an instruction, where it has one.
fn place_result(pool: &mut Pool, alloc: Global, instr: Instr) -> Result<Place, Memory>
    requires pool { IsPool pool.old }
    requires width { IsWidth instr.width }
    requires fits { is_too_wide pool.old.wires instr ≡ false }
    requires wires { pool.old.wires ≤ 65536 }
    requires few { length pool.old.pages.items < NEVER }
    ensures pool { OnOk result (IsPool pool.new) }
    ensures wires { OnOk result (pool.new.wires ≡ pool.old.wires) }
    ensures given { IfOk result (λ place. MatchBool (has_result instr.op)
        (Gives pool.old.pages.items pool.new.pages.items pool.old.wires (class_of_result instr)
        place)
        ((pool.new ≡ pool.old) × (place ≡ nowhere))) }
{
    match result_width(instr.op, instr.width) {
        Some(width) => take(pool, alloc, class_of(width)),
        None => Ok(Place { page: 0, offset: 0 }),
    }
}

// Frees the places of the values that instruction t touches last.
fn free_ended(
    pool: &mut Pool,
    places: &[Place],
    last: &[u32],
    instr: Instr,
    t: u32,
) -> Result<(), Memory>
    requires pool { IsPool pool.old }
    requires values { (v : ℕ) → Contains (values_touched_by instr t) v → (v < length places.now)
        × (v < length last.now) × IsOn pool.old.pages.items (place_of places.now v) }
    ensures pool { OnOk result (IsPool pool.new) }
    ensures wires { OnOk result (pool.new.wires ≡ pool.old.wires) }
    ensures freed { OnOk result (FreesEnded pool.old.pages.items pool.new.pages.items places.now
        last.now t (values_touched_by instr t)) }
{
    let touched = touched_values(instr, t);
    for k in 0..usize::from(touched.count) {
        let value = touched.values[k] as usize;
        if last[value] == t {
            free(pool, places[value])?;
        }
    }
    Ok(())
}

#[cfg(test)]
mod tests;
