// Turns that move pages.
ghost use Rattle.std.specs.Prelude.{ℕ};
ghost use Rattle.mage_instr.specs.declared.directive.Directive.TheVariants as entry;
ghost use Rattle.mage_world.specs.Seats.{IsAt, Stands, seat_of, state_of};
ghost use Rattle.mage_world.specs.Turns.{Turns, Wires};

use crate::event::ApplyError;
use crate::slot::{begin_read, begin_write, end_read, end_write};
use crate::worker::Worker;
use mage_driver::Driver;
use mage_verify::Part;

/// A slot is asked to read a page.
pub(crate) fn ask_read<D: Driver>(
    _driver: &D,
    _part: &Part,
    worker: &mut Worker,
    slot: u16,
    page: u32,
) -> Result<(), ApplyError>
    requires stands { Stands D.rules _part.now (D.tells _driver.now) worker.old }
    requires here { IsAt _part.now worker.old (entry.IssueIn slot page) }
    ensures stands { Stands D.rules _part.now (D.tells _driver.now) worker.new }
    ensures turn { (capacity : ℕ) (wires : Wires) → Turns D.rules _part.now capacity
        (seat_of D.rules _part.now.limits.page (D.tells _driver.now) (state_of worker.old))
        (seat_of D.rules _part.now.limits.page (D.tells _driver.now) (state_of worker.new))
        wires wires result }
{
    if !begin_read(&mut worker.slots, slot, page) {
        return Err(ApplyError::NotEnabled);
    }
    worker.place += 1;
    worker.wire = 0;
    Ok(())
}

/// A slot is asked to write what a frame holds.
pub(crate) fn ask_write<D: Driver>(
    _driver: &D,
    _part: &Part,
    worker: &mut Worker,
    slot: u16,
    frame: u16,
    page: u32,
) -> Result<(), ApplyError>
    requires stands { Stands D.rules _part.now (D.tells _driver.now) worker.old }
    requires here { IsAt _part.now worker.old (entry.IssueOut slot frame page) }
    ensures stands { Stands D.rules _part.now (D.tells _driver.now) worker.new }
    ensures turn { (capacity : ℕ) (wires : Wires) → Turns D.rules _part.now capacity
        (seat_of D.rules _part.now.limits.page (D.tells _driver.now) (state_of worker.old))
        (seat_of D.rules _part.now.limits.page (D.tells _driver.now) (state_of worker.new))
        wires wires result }
{
    let bytes = worker.frames[usize::from(frame)].as_slice();
    if !begin_write(&mut worker.slots, slot, page, bytes) {
        return Err(ApplyError::NotEnabled);
    }
    worker.place += 1;
    worker.wire = 0;
    Ok(())
}

/// A frame takes what a slot read.
pub(crate) fn finish_read<D: Driver>(
    _driver: &D,
    _part: &Part,
    worker: &mut Worker,
    slot: u16,
    frame: u16,
) -> Result<(), ApplyError>
    requires stands { Stands D.rules _part.now (D.tells _driver.now) worker.old }
    requires here { IsAt _part.now worker.old (entry.FinishIn slot frame) }
    ensures stands { Stands D.rules _part.now (D.tells _driver.now) worker.new }
    ensures turn { (capacity : ℕ) (wires : Wires) → Turns D.rules _part.now capacity
        (seat_of D.rules _part.now.limits.page (D.tells _driver.now) (state_of worker.old))
        (seat_of D.rules _part.now.limits.page (D.tells _driver.now) (state_of worker.new))
        wires wires result }
{
    if !end_read(&mut worker.slots, slot, &mut worker.frames, frame) {
        return Err(ApplyError::NotEnabled);
    }
    worker.place += 1;
    worker.wire = 0;
    Ok(())
}

/// A slot has written its page.
pub(crate) fn finish_write<D: Driver>(
    _driver: &D,
    _part: &Part,
    worker: &mut Worker,
    slot: u16,
) -> Result<(), ApplyError>
    requires stands { Stands D.rules _part.now (D.tells _driver.now) worker.old }
    requires here { IsAt _part.now worker.old (entry.FinishOut slot) }
    ensures stands { Stands D.rules _part.now (D.tells _driver.now) worker.new }
    ensures turn { (capacity : ℕ) (wires : Wires) → Turns D.rules _part.now capacity
        (seat_of D.rules _part.now.limits.page (D.tells _driver.now) (state_of worker.old))
        (seat_of D.rules _part.now.limits.page (D.tells _driver.now) (state_of worker.new))
        wires wires result }
{
    if !end_write(&mut worker.slots, slot) {
        return Err(ApplyError::NotEnabled);
    }
    worker.place += 1;
    worker.wire = 0;
    Ok(())
}
