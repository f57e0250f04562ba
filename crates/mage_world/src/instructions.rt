// Turns that fill a frame, do an instruction, hand over a wire, or finish the driver.
ghost use Rattle.std.specs.Prelude.{◌≡◌, ◌<◌, ◌==◌, ◌+◌, if◌then◌else◌, ℕ, None, IsTrue, slice_get};
ghost use Rattle.mage_circuit.specs.Results.{is_made};
ghost use Rattle.mage_directives.specs.Directives.{IsDirective};
ghost use Rattle.mage_instr.specs.declared.directive.Directive.TheVariants as entry;
ghost use Rattle.mage_instr.specs.declared.op.Op.TheVariants as op;
ghost use Rattle.mage_link.specs.Queues.{lies_in};
ghost use Rattle.mage_world.specs.Seats.{IsAt, IsLinked, Stands, seat_of, state_of};
ghost use Rattle.mage_world.specs.Turns.{Turns, Wires};

use crate::event::ApplyError;
use crate::worker::Worker;
use mage_bank::{clear, compute, receive, send};
use mage_circuit::Scratch;
use mage_driver::Driver;
use mage_instr::{Job, Op};
use mage_link::{LinkPort, QueueLink, Wire16};
use mage_verify::Part;

/// A frame is filled with zeros.
pub(crate) fn fresh<D: Driver>(
    _driver: &D,
    _part: &Part,
    worker: &mut Worker,
    frame: u16,
    _page: u32,
) -> Result<(), ApplyError>
    requires stands { Stands D.rules _part.now (D.tells _driver.now) worker.old }
    requires here { IsAt _part.now worker.old (entry.Fresh frame _page) }
    ensures stands { Stands D.rules _part.now (D.tells _driver.now) worker.new }
    ensures turn { (capacity : ℕ) (wires : Wires) → Turns D.rules _part.now capacity
        (seat_of D.rules _part.now.limits.page (D.tells _driver.now) (state_of worker.old))
        (seat_of D.rules _part.now.limits.page (D.tells _driver.now) (state_of worker.new))
        wires wires result }
{
    clear(worker.frames.as_mut_slice(), frame);
    worker.place += 1;
    worker.wire = 0;
    Ok(())
}

/// A turn of an instruction.
pub(crate) fn instruct<D: Driver>(
    driver: &mut D,
    part: &Part,
    worker: &mut Worker,
    links: &mut QueueLink,
    scratch: &mut Scratch<D>,
    job: Job,
) -> Result<(), ApplyError>
    requires stands { Stands D.rules part.now (D.tells driver.old) worker.old }
    requires here { IsAt part.now worker.old (entry.Do job) }
    requires linked { IsLinked links.old.workers part.now }
    ensures stands { Stands D.rules part.now (D.tells driver.new) worker.new }
    ensures turn { Turns D.rules part.now links.old.capacity
        (seat_of D.rules part.now.limits.page (D.tells driver.old) (state_of worker.old))
        (seat_of D.rules part.now.limits.page (D.tells driver.new) (state_of worker.new))
        (lies_in links.old) (lies_in links.new) result }
    ensures links { (links.new.workers ≡ links.old.workers)
        × (links.new.capacity ≡ links.old.capacity) }
{
    match job.op {
        Op::Send => push(driver, part, worker, links, job),
        Op::Recv => pop(driver, part, worker, links, job),
        _ => compute_job(driver, part, worker, scratch, job),
    }
}

// The driver makes the circuit of an instruction.
fn compute_job<D: Driver>(
    driver: &mut D,
    _part: &Part,
    worker: &mut Worker,
    scratch: &mut Scratch<D>,
    job: Job,
) -> Result<(), ApplyError>
    requires stands { Stands D.rules _part.now (D.tells driver.old) worker.old }
    requires here { IsAt _part.now worker.old (entry.Do job) }
    requires made { IsTrue (is_made job.op) }
    ensures stands { Stands D.rules _part.now (D.tells driver.new) worker.new }
    ensures turn { (capacity : ℕ) (wires : Wires) → Turns D.rules _part.now capacity
        (seat_of D.rules _part.now.limits.page (D.tells driver.old) (state_of worker.old))
        (seat_of D.rules _part.now.limits.page (D.tells driver.new) (state_of worker.new))
        wires wires result }
{
    match compute(driver, &job, worker.frames.as_mut_slice(), scratch) {
        Ok(()) => {
            worker.place += 1;
            worker.wire = 0;
            Ok(())
        }
        Err(fault) => {
            worker.fault = Some(fault);
            Err(ApplyError::Driver(fault))
        }
    }
}

// Sends the next wire of a value.
fn push<D: Driver>(
    driver: &D,
    part: &Part,
    worker: &mut Worker,
    links: &mut QueueLink,
    job: Job,
) -> Result<(), ApplyError>
    requires stands { Stands D.rules part.now (D.tells driver.now) worker.old }
    requires here { IsAt part.now worker.old (entry.Do job) }
    requires sends { job.op ≡ op.Send }
    requires linked { IsLinked links.old.workers part.now }
    ensures stands { Stands D.rules part.now (D.tells driver.now) worker.new }
    ensures turn { Turns D.rules part.now links.old.capacity
        (seat_of D.rules part.now.limits.page (D.tells driver.now) (state_of worker.old))
        (seat_of D.rules part.now.limits.page (D.tells driver.now) (state_of worker.new))
        (lies_in links.old) (lies_in links.new) result }
    ensures links { (links.new.workers ≡ links.old.workers)
        × (links.new.capacity ≡ links.old.capacity) }
{
    let to = job.imm as u16;
    if links.lying(part.worker(), to) == usize::from(links.capacity()) {
        return Err(ApplyError::NotEnabled);
    }
    let bytes = send(driver, worker.frames.as_slice(), job.args[0], worker.wire);
    let _ = links.try_send(part.worker(), to, Wire16 { bytes });
    (worker.place, worker.wire) = past_wire(worker.place, worker.wire, job.width);
    Ok(())
}

// Receives the next wire of a value.
fn pop<D: Driver>(
    driver: &D,
    part: &Part,
    worker: &mut Worker,
    links: &mut QueueLink,
    job: Job,
) -> Result<(), ApplyError>
    requires stands { Stands D.rules part.now (D.tells driver.now) worker.old }
    requires here { IsAt part.now worker.old (entry.Do job) }
    requires receives { job.op ≡ op.Recv }
    requires linked { IsLinked links.old.workers part.now }
    ensures stands { Stands D.rules part.now (D.tells driver.now) worker.new }
    ensures turn { Turns D.rules part.now links.old.capacity
        (seat_of D.rules part.now.limits.page (D.tells driver.now) (state_of worker.old))
        (seat_of D.rules part.now.limits.page (D.tells driver.now) (state_of worker.new))
        (lies_in links.old) (lies_in links.new) result }
    ensures links { (links.new.workers ≡ links.old.workers)
        × (links.new.capacity ≡ links.old.capacity) }
{
    let from = job.imm as u16;
    if links.lying(from, part.worker()) == 0 {
        return Err(ApplyError::NotEnabled);
    }
    match links.try_recv(part.worker(), from) {
        Some(wire) => {
            receive(
                driver,
                &wire.bytes,
                worker.frames.as_mut_slice(),
                job.out,
                worker.wire,
            );
            (worker.place, worker.wire) = past_wire(worker.place, worker.wire, job.width);
            Ok(())
        }
        None => Err(ApplyError::NotEnabled),
    }
}

/// Past the last directive the driver is finished, once.
pub(crate) fn end<D: Driver>(
    driver: &mut D,
    _part: &Part,
    worker: &mut Worker,
) -> Result<(), ApplyError>
    requires stands { Stands D.rules _part.now (D.tells driver.old) worker.old }
    requires sound { worker.old.fault ≡ None }
    requires past { slice_get _part.now.directives worker.old.place ≡ None }
    ensures stands { Stands D.rules _part.now (D.tells driver.new) worker.new }
    ensures turn { (capacity : ℕ) (wires : Wires) → Turns D.rules _part.now capacity
        (seat_of D.rules _part.now.limits.page (D.tells driver.old) (state_of worker.old))
        (seat_of D.rules _part.now.limits.page (D.tells driver.new) (state_of worker.new))
        wires wires result }
{
    if worker.finished {
        return Err(ApplyError::NotEnabled);
    }
    match driver.finish() {
        Ok(()) => {
            worker.finished = true;
            Ok(())
        }
        Err(fault) => {
            worker.fault = Some(fault);
            Err(ApplyError::Driver(fault))
        }
    }
}

// Where a worker stands after one wire more of a value of this width: with the last one the directive is done.
fn past_wire(place: u32, wire: u8, width: u8) -> (u32, u8)
    requires place { place + 1 < 4294967296 }
    requires wire { wire < width }
    ensures place { result.0 ≡ (if wire + 1 == width then place + 1 else place) }
    ensures wire { result.1 ≡ (if wire + 1 == width then 0 else wire + 1) }
{
    if wire + 1 == width {
        (place + 1, 0)
    } else {
        (place, wire + 1)
    }
}
