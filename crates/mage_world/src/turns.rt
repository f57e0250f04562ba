// One turn of a worker.
ghost use Rattle.std.specs.Prelude.{◌≡◌, None, slice_get};
ghost use Rattle.mage_link.specs.Queues.{lies_in};
ghost use Rattle.mage_world.specs.Seats.{IsLinked, Stands, seat_of, state_of};
ghost use Rattle.mage_world.specs.Turns.{KindTurns, Turns};

use crate::event::{ApplyError, Kind};
use crate::instructions::{end, fresh, instruct};
use crate::kinds::kind_at;
use crate::transfers::{ask_read, ask_write, finish_read, finish_write};
use crate::worker::Worker;
use mage_circuit::Scratch;
use mage_driver::Driver;
use mage_instr::Directive;
use mage_link::QueueLink;
use mage_verify::Part;

/// A turn of this kind, where the worker stands at one.
pub(crate) fn take_turn<D: Driver>(
    driver: &mut D,
    part: &Part,
    worker: &mut Worker,
    links: &mut QueueLink,
    scratch: &mut Scratch<D>,
    kind: Kind,
) -> Result<(), ApplyError>
    requires stands { Stands D.rules part.now (D.tells driver.old) worker.old }
    requires linked { IsLinked links.old.workers part.now }
    ensures stands { Stands D.rules part.now (D.tells driver.new) worker.new }
    ensures turn { KindTurns D.rules part.now kind links.old.capacity
        (seat_of D.rules part.now.limits.page (D.tells driver.old) (state_of worker.old))
        (seat_of D.rules part.now.limits.page (D.tells driver.new) (state_of worker.new))
        (lies_in links.old) (lies_in links.new) result }
    ensures links { (links.new.workers ≡ links.old.workers)
        × (links.new.capacity ≡ links.old.capacity) }
{
    if worker.fault.is_some() {
        return Err(ApplyError::NotEnabled);
    }
    let next = next_of(part.directives(), worker.place);
    if kind_at(next, worker.finished) != Some(kind) {
        return Err(ApplyError::NotEnabled);
    }
    go(driver, part, worker, links, scratch, next)
}

// The turn at a directive, or past the last one.
fn go<D: Driver>(
    driver: &mut D,
    part: &Part,
    worker: &mut Worker,
    links: &mut QueueLink,
    scratch: &mut Scratch<D>,
    next: Option<Directive>,
) -> Result<(), ApplyError>
    requires stands { Stands D.rules part.now (D.tells driver.old) worker.old }
    requires linked { IsLinked links.old.workers part.now }
    requires sound { worker.old.fault ≡ None }
    requires here { slice_get part.now.directives worker.old.place ≡ next }
    ensures stands { Stands D.rules part.now (D.tells driver.new) worker.new }
    ensures turn { Turns D.rules part.now links.old.capacity
        (seat_of D.rules part.now.limits.page (D.tells driver.old) (state_of worker.old))
        (seat_of D.rules part.now.limits.page (D.tells driver.new) (state_of worker.new))
        (lies_in links.old) (lies_in links.new) result }
    ensures links { (links.new.workers ≡ links.old.workers)
        × (links.new.capacity ≡ links.old.capacity) }
{
    match next {
        Some(Directive::Fresh { frame, page }) => fresh(driver, part, worker, frame, page),
        Some(Directive::IssueIn { slot, page }) => ask_read(driver, part, worker, slot, page),
        Some(Directive::FinishIn { slot, frame }) => finish_read(driver, part, worker, slot, frame),
        Some(Directive::IssueOut { slot, frame, page }) => {
            ask_write(driver, part, worker, slot, frame, page)
        }
        Some(Directive::FinishOut { slot }) => finish_write(driver, part, worker, slot),
        Some(Directive::Do(job)) => instruct(driver, part, worker, links, scratch, job),
        None => end(driver, part, worker),
    }
}

/// The directive with this index; none past the last one.
pub(crate) fn next_of(directives: &[Directive], place: u32) -> Option<Directive>
    ensures { result ≡ slice_get directives.now place }
{
    directives.get(place as usize).copied()
}
