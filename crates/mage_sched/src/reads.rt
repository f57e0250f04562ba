ghost use Rattle.std.specs.Prelude.{◌≡◌, ◌≤◌, ◌<◌, ◌+◌, ◌++◌, ◌∷◌, [], ℕ, List, length, IfOk, OnOk};
ghost use Rattle.mage_instr.specs.declared.instr.TheConstants.{NEVER};
ghost use Rattle.mage_instr.specs.declared.replaced.Replaced.{Replaced};
ghost use Rattle.mage_sched.specs.Reads.{gap_after, lost_in, reads_from, reads_of, read_at, freed_for, earliest, timed_of};
ghost use Rattle.mage_sched.specs.Schedule.{jobs_of};
ghost use Rattle.mage_sched.specs.Views.{Knows};

use crate::past::Past;
use crate::read::{Read, Timed};
use mage_base::Memory;
use mage_instr::Replaced;
use std::alloc::Global;
use std::collections::HashMap;

impl Past {
    // Nothing was before.
    fn new(alloc: Global) -> Past
        ensures { Knows result [] }
    {
        Past {
            gap: 0,
            memory: HashMap::new(alloc),
            lost: HashMap::new(alloc),
        }
    }

    // A frame takes a page, and the page that it had loses it.
    fn enter(&mut self, frame: u16, page: u32) -> Result<(), Memory>
        ensures fresh { (before : List Replaced) → Knows self.old before
            → OnOk result (Knows self.new (Replaced.Fresh frame page ∷ before)) }
        ensures load { (before : List Replaced) → Knows self.old before
            → OnOk result (Knows self.new (Replaced.Load frame page ∷ before)) }
    {
        if let Some(other) = self.memory.insert(frame, page)? {
            self.lost.insert(other, self.gap)?;
        }
        Ok(())
    }

    // One more entry was before.
    fn note(&mut self, entry: Replaced) -> Result<(), Memory>
        requires { self.old.gap + jobs_of (entry ∷ []) ≤ NEVER }
        ensures { (before : List Replaced) → Knows self.old before
            → OnOk result (Knows self.new (entry ∷ before)) }
    {
        match entry {
            Replaced::Fresh { frame, page } | Replaced::Load { frame, page } => {
                self.enter(frame, page)?;
            }
            Replaced::Save { page, .. } => {
                self.lost.insert(page, self.gap)?;
            }
            Replaced::Do(_) => self.gap += 1,
        }
        Ok(())
    }

    // The read of a page that comes in next.
    fn read(&self, page: u32) -> Read
        ensures { (before : List Replaced) → Knows self.now before → result
            ≡ record { page = page; due = gap_after before; lost = lost_in before page } }
    {
        Read {
            page,
            due: self.gap,
            lost: self.lost.get(&page).copied().unwrap_or(0),
        }
    }
}

// The read of an entry, where it loads a page.
fn add_read(reads: &mut Vec<Read>, past: &Past, entry: Replaced) -> Result<(), Memory>
    ensures { (before rest : List Replaced) → Knows past.now before → OnOk result (reads.new.items
        ++ reads_from (entry ∷ before) rest ≡ reads.old.items ++ reads_from before (entry ∷ rest)) }
{
    if let Replaced::Load { page, .. } = entry {
        reads.push(past.read(page))?;
    }
    Ok(())
}

// The reads of a list, in the order of its loads.
fn reads_of(alloc: Global, list: &[Replaced]) -> Result<Vec<Read>, Memory>
    requires { jobs_of list.now ≤ NEVER }
    ensures { IfOk result (λ reads. reads.items ≡ reads_of list.now) }
{
    let mut reads = Vec::new(alloc);
    let mut past = Past::new(alloc);
    for k in 0..list.len() {
        add_read(&mut reads, &past, list[k])?;
        past.note(list[k])?;
    }
    Ok(reads)
}

// The gap in which a slot is sure to be idle again for read i.
fn freed_for(reads: &[Read], i: usize, buffer: u16) -> u32
    requires { i < length reads.now }
    ensures { result ≡ freed_for buffer reads.now i }
{
    let buffer = usize::from(buffer);
    if i + 1 < buffer {
        0
    } else {
        due_of(reads, i + 1 - buffer)
    }
}

// When read i is due, or 0 where there is none.
fn due_of(reads: &[Read], i: usize) -> u32
    ensures { result ≡ (read_at reads.now i).due }
{
    if i < reads.len() { reads[i].due } else { 0 }
}

// The first gap in which read i may be issued.
fn earliest(reads: &[Read], i: usize, buffer: u16, ahead: u32) -> u32
    requires { i < length reads.now }
    ensures { result ≡ earliest buffer ahead reads.now i }
{
    let read = reads[i];
    let freed = freed_for(reads, i, buffer);
    read.due.saturating_sub(ahead).max(read.lost).max(freed)
}

// The reads with the gaps in which they are issued.
fn timed_of(alloc: Global, reads: &[Read], buffer: u16, ahead: u32) -> Result<Vec<Timed>, Memory>
    ensures { IfOk result (λ timed. timed.items ≡ timed_of buffer ahead reads.now) }
{
    let mut timed = Vec::with_capacity(alloc, reads.len())?;
    let mut issue = 0;
    for i in 0..reads.len() {
        issue = earliest(reads, i, buffer, ahead).max(issue);
        timed.push(Timed {
            page: reads[i].page,
            due: reads[i].due,
            issue,
        })?;
    }
    Ok(timed)
}

// When each read of a list is issued, in the order of its loads.
pub(crate) fn issues_of(
    alloc: Global,
    list: &[Replaced],
    buffer: u16,
    ahead: u32,
) -> Result<Vec<Timed>, Memory>
    requires { jobs_of list.now ≤ NEVER }
    ensures { IfOk result (λ timed. timed.items ≡ timed_of buffer ahead (reads_of list.now)) }
{
    let reads = reads_of(alloc, list)?;
    timed_of(alloc, reads.as_slice(), buffer, ahead)
}
