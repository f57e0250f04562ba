// Which event is enabled.
ghost use Rattle.std.specs.Prelude.{◌≡◌, ◌≤◌, ◌<◌, length, map, slice_get};
ghost use Rattle.mage_directives.specs.Directives.{LinksTo};
ghost use Rattle.mage_instr.specs.declared.directive.Directive.TheVariants as entry;
ghost use Rattle.mage_link.specs.Queues.{lies_in};
ghost use Rattle.mage_world.specs.Ready.{can_do, can_go, IsService, TurnAt, ReadyAt, Readies};
ghost use Rattle.mage_world.specs.Seats.{IsLinked, seat_of, state_of};
ghost use Rattle.mage_world.specs.Slots.{in_slots};
ghost use Rattle.mage_world.specs.Worlds.{IsTurn, IsWorld, seen, worker_in, what_in};

use crate::event::{Event, Kind};
use crate::kinds::kind_at;
use crate::slot::{Slot, has_read, has_written, is_asked, is_busy, is_idle};
use crate::turns::next_of;
use crate::worker::Worker;
use mage_driver::Driver;
use mage_instr::{Directive, Job, Op};
use mage_link::QueueLink;
use mage_verify::Part;

/// The first event of the lowest worker that has one.
pub(crate) fn first_ready<D: Driver>(
    drivers: &[D],
    parts: &[Part],
    workers: &[Worker],
    links: &QueueLink,
) -> Option<Event>
    requires { IsWorld D.rules D.tells parts.now drivers.now workers.now links.now.workers }
    ensures { Readies D.rules (seen D.rules D.tells (record {
      parts = parts.now;
      drivers = drivers.now;
      workers = map state_of workers.now;
      capacity = links.now.capacity;
      links = links.now.links;
    })) result }
{
    for n in 0..parts.len() {
        let found = ready_of(&drivers[n], &parts[n], &workers[n], links, n as u16);
        if found.is_some() {
            return found;
        }
    }
    None
}

// The first event of a worker.
fn ready_of<D: Driver>(
    driver: &D,
    part: &Part,
    worker: &Worker,
    links: &QueueLink,
    w: u16,
) -> Option<Event>
    requires linked { IsLinked links.now.workers part.now }
    requires few { links.now.workers ≤ 16 }
    requires slots { length worker.now.slots.items ≤ 65535 }
    ensures { ReadyAt D.rules links.now.capacity w part.now
        (seat_of D.rules part.now.limits.page (D.tells driver.now) (state_of worker.now))
        (lies_in links.now) result }
{
    match ready_turn(driver, part, worker, links) {
        Some(kind) => Some(turn_of(w, kind)),
        None => ready_service(worker.slots.as_slice(), w),
    }
}

// The kind of the turn that a worker has.
fn ready_turn<D: Driver>(
    _driver: &D,
    part: &Part,
    worker: &Worker,
    links: &QueueLink,
) -> Option<Kind>
    requires linked { IsLinked links.now.workers part.now }
    requires few { links.now.workers ≤ 16 }
    ensures { TurnAt D.rules links.now.capacity part.now
        (seat_of D.rules part.now.limits.page (D.tells _driver.now) (state_of worker.now))
        (lies_in links.now) result }
{
    if worker.fault.is_some() {
        return None;
    }
    let next = next_of(part.directives(), worker.place);
    if !can_go(part, worker, links, next) {
        return None;
    }
    kind_at(next, worker.finished)
}

// Whether the turn at a directive, or past the last one, can be done.
fn can_go(part: &Part, worker: &Worker, links: &QueueLink, next: Option<Directive>) -> bool
    requires linked { IsLinked links.now.workers part.now }
    requires few { links.now.workers ≤ 16 }
    requires here { slice_get part.now.directives worker.now.place ≡ next }
    ensures { result ≡ can_go next worker.now.finished (in_slots worker.now.slots.items)
        links.now.capacity part.now.worker (lies_in links.now) }
{
    match next {
        Some(Directive::Fresh { .. }) => true,
        Some(Directive::IssueIn { slot, .. }) => is_idle(worker.slots.as_slice(), slot),
        Some(Directive::FinishIn { slot, .. }) => has_read(worker.slots.as_slice(), slot),
        Some(Directive::IssueOut { slot, .. }) => is_idle(worker.slots.as_slice(), slot),
        Some(Directive::FinishOut { slot }) => has_written(worker.slots.as_slice(), slot),
        Some(Directive::Do(job)) => can_do(part, links, job),
        None => !worker.finished,
    }
}

// Whether a link has room for what an instruction sends, or a wire that it receives.
fn can_do(part: &Part, links: &QueueLink, job: Job) -> bool
    requires within { part.now.worker < links.now.workers }
    requires few { links.now.workers ≤ 16 }
    requires link { LinksTo links.now.workers part.now.worker job.op job.imm }
    ensures { result ≡ can_do job.op job.imm links.now.capacity part.now.worker (lies_in links.now) }
{
    match job.op {
        Op::Send => links.lying(part.worker(), job.imm as u16) < usize::from(links.capacity()),
        Op::Recv => 0 < links.lying(job.imm as u16, part.worker()),
        _ => true,
    }
}

// The turn of this kind.
fn turn_of(w: u16, kind: Kind) -> Event
    ensures worker { worker_in result ≡ w }
    ensures kind { what_in result ≡ IsTurn kind }
{
    match kind {
        Kind::Do => Event::Do { w },
        Kind::Ask => Event::Ask { w },
        Kind::Finish => Event::Finish { w },
        Kind::Push => Event::Push { w },
        Kind::Pop => Event::Pop { w },
    }
}

// The first slot that can be claimed or served.
fn ready_service(slots: &[Slot], w: u16) -> Option<Event>
    requires { length slots.now ≤ 65535 }
    ensures { IsService slots.now w result }
{
    for slot in 0..slots.len() as u16 {
        if is_asked(slots, slot) {
            return Some(Event::Claim { w, slot });
        }
        if is_busy(slots, slot) {
            return Some(Event::Serve { w, slot });
        }
    }
    None
}
