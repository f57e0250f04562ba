// The joint run of all workers: a Send and its Recv happen at once, and at each turn the lowest worker that can goes on.
ghost use Rattle.std.specs.Prelude.{◌≡◌, ◌⊎◌, ◌≤◌, ◌<◌, ℕ, slice_get, length, replicate, IfSome, IfErr, IfOk, OnOk, Some, None};
ghost use Rattle.mage_directives.specs.Directives.{IsPart};
ghost use Rattle.mage_verify.specs.declared.fault.VerifyFault.TheVariants as wrong;
ghost use Rattle.mage_verify.specs.Faults.{joint_fault};
ghost use Rattle.mage_verify.specs.Joint as joint;
ghost use Rattle.mage_verify.specs.Turns.{done_in, IsInside, CanGo, CanTurn};

use crate::VerifyFault;
use crate::turn::{Place, Stand, Turn};
use mage_base::Memory;
use mage_instr::{Directive, Job, Op};
use sqlite_items::Items;
use std::alloc::Global;

// All workers together.
pub(crate) fn check_joint(alloc: Global, workers: &[Items<Directive>]) -> Result<(), VerifyFault>
    requires few { length workers.now ≤ 16 }
    requires parts { (w : ℕ) → IfSome (slice_get workers.now w) (IsPart (length workers.now) w) }
    ensures none { OnOk result (joint_fault workers.now ≡ None) }
    ensures fault { IfErr result (λ fault. (fault ≡ wrong.Memory) ⊎ (joint_fault workers.now ≡ Some fault)) }
{
    match none_done(alloc, workers.len()) {
        Ok(mut done) => check_run(workers, done.as_mut_slice()),
        Err(_) => Err(VerifyFault::Memory),
    }
}

// No worker has done anything.
fn none_done(alloc: Global, workers: usize) -> Result<Vec<u32>, Memory>
    ensures { IfOk result (λ done. done.items ≡ replicate workers 0) }
{
    Ok(vec![in alloc; 0u32; workers]?)
}

// All workers together, from the beginning.
fn check_run(workers: &[Items<Directive>], done: &mut [u32]) -> Result<(), VerifyFault>
    requires few { length workers.now ≤ 16 }
    requires parts { (w : ℕ) → IfSome (slice_get workers.now w) (IsPart (length workers.now) w) }
    requires none { done.old ≡ replicate (length workers.now) 0 }
    ensures none { OnOk result (joint_fault workers.now ≡ None) }
    ensures fault { IfErr result (λ fault. joint_fault workers.now ≡ Some fault) }
{
    let differing = run(workers, done, count_all(workers));
    if let Some(place) = waiting(workers, done) {
        return Err(VerifyFault::Links {
            worker: place.worker,
            directive: place.directive,
        });
    }
    match differing {
        Some(place) => Err(VerifyFault::Width {
            worker: place.worker,
            directive: place.directive,
        }),
        None => Ok(()),
    }
}

// How many directives there are.
fn count_all(workers: &[Items<Directive>]) -> u64
    requires few { length workers.now ≤ 16 }
    requires parts { (w : ℕ) → IfSome (slice_get workers.now w) (IsPart (length workers.now) w) }
    ensures { result ≡ joint.count_all workers.now }
{
    let mut count = 0;
    for directives in workers {
        count += directives.len() as u64;
    }
    count
}

// The run for so many turns at most, of workers that have done so many of their directives. The answer is where a value is
// received in another width than it is sent: the place of the lowest worker, and its first.
fn run(workers: &[Items<Directive>], done: &mut [u32], turns: u64) -> Option<Place>
    requires few { length workers.now ≤ 16 }
    requires parts { (w : ℕ) → IfSome (slice_get workers.now w) (IsPart (length workers.now) w) }
    requires counted { length done.old ≡ length workers.now }
    ensures counted { length done.new ≡ length workers.now }
    ensures done { done_in done.new ≡ joint.after_turns
        (joint.joint_order (joint.lists_at workers.now) (length workers.now) turns (done_in done.old)) (done_in done.old) }
    ensures differing { result ≡ joint.differing (joint.lists_at workers.now)
        (joint.joint_order (joint.lists_at workers.now) (length workers.now) turns (done_in done.old)) (done_in done.old) }
{
    let mut lowest = None;
    for _ in 0..turns {
        match first_turn(workers, done) {
            None => return lowest,
            Some(turn) => {
                lowest = lower(lowest, differing_at(workers, done, turn));
                take_turn(workers, done, turn);
            }
        }
    }
    lowest
}

// Of two places that of the lower worker, and the first where both are of one.
fn lower(first: Option<Place>, second: Option<Place>) -> Option<Place>
    ensures { result ≡ joint.lower first second }
{
    match (first, second) {
        (None, _) => second,
        (Some(_), None) => first,
        (Some(one), Some(other)) => {
            if other.worker < one.worker {
                Some(other)
            } else {
                Some(one)
            }
        }
    }
}

// The turn of the lowest worker that can go on.
fn first_turn(workers: &[Items<Directive>], done: &[u32]) -> Option<Turn>
    requires few { length workers.now ≤ 16 }
    requires counted { length done.now ≡ length workers.now }
    ensures first { result ≡ joint.first_turn (joint.stands (joint.lists_at workers.now) (done_in done.now)) 0 (length workers.now) }
    ensures goes { IfSome result (CanTurn workers.now (done_in done.now)) }
{
    for worker in 0..workers.len() {
        if let Some(turn) = turn_of(workers, done, worker as u16) {
            return Some(turn);
        }
    }
    None
}

// The turn of a worker, if it can go on.
fn turn_of(workers: &[Items<Directive>], done: &[u32], worker: u16) -> Option<Turn>
    requires few { length workers.now ≤ 16 }
    requires counted { length done.now ≡ length workers.now }
    ensures turn { result ≡ joint.turn_at worker (joint.stands (joint.lists_at workers.now) (done_in done.now) worker)
        (joint.stands (joint.lists_at workers.now) (done_in done.now)) }
    ensures goes { IfSome result (CanTurn workers.now (done_in done.now)) }
{
    match stand(workers, done, u64::from(worker)) {
        Stand::Ended => None,
        Stand::Alone => Some(Turn::Alone(worker)),
        Stand::Sends(target) => match stand(workers, done, target) {
            Stand::Receives(source) if source == u64::from(worker) => Some(Turn::Hands {
                source: worker,
                target: target as u16,
            }),
            _ => None,
        },
        Stand::Receives(source) => match stand(workers, done, source) {
            Stand::Sends(target) if target == u64::from(worker) => Some(Turn::Hands {
                source: source as u16,
                target: worker,
            }),
            _ => None,
        },
    }
}

// Where a worker stands.
fn stand(workers: &[Items<Directive>], done: &[u32], worker: u64) -> Stand
    requires { length done.now ≡ length workers.now }
    ensures stand { result ≡ joint.stands (joint.lists_at workers.now) (done_in done.now) worker }
    ensures inside { IsInside workers.now (done_in done.now) worker result }
{
    if worker < workers.len() as u64 {
        let at = worker as usize;
        stand_at(next_of(workers[at].as_slice(), done[at]))
    } else {
        Stand::Ended
    }
}

// The directive behind so many, if there is one.
fn next_of(directives: &[Directive], done: u32) -> Option<Directive>
    ensures { result ≡ slice_get directives.now done }
{
    directives.get(done as usize).copied()
}

fn stand_at(next: Option<Directive>) -> Stand
    ensures { result ≡ joint.stand_at next }
{
    match next {
        Some(Directive::Do(job)) => stand_of(job),
        Some(_) => Stand::Alone,
        None => Stand::Ended,
    }
}

// What an instruction asks of another worker.
fn stand_of(job: Job) -> Stand
    ensures { result ≡ joint.stand_of job.op job.imm }
{
    match job.op {
        Op::Send => Stand::Sends(job.imm),
        Op::Recv => Stand::Receives(job.imm),
        _ => Stand::Alone,
    }
}

// Where the turn receives a value in another width than it is sent.
fn differing_at(workers: &[Items<Directive>], done: &[u32], turn: Turn) -> Option<Place>
    requires counted { length done.now ≡ length workers.now }
    requires goes { CanTurn workers.now (done_in done.now) turn }
    ensures { result ≡ joint.differing_at (joint.lists_at workers.now) turn (done_in done.now) }
{
    match turn {
        Turn::Alone(_) => None,
        Turn::Hands { source, target } => {
            if width(workers, done, source) == width(workers, done, target) {
                None
            } else {
                Some(Place {
                    worker: target,
                    directive: done[usize::from(target)],
                })
            }
        }
    }
}

// The width of the instruction at which a worker stands.
fn width(workers: &[Items<Directive>], done: &[u32], worker: u16) -> u8
    requires counted { length done.now ≡ length workers.now }
    requires goes { CanGo workers.now (done_in done.now) worker }
    ensures { result ≡ joint.width_at (joint.next_of (joint.lists_at workers.now) (done_in done.now) worker) }
{
    let at = usize::from(worker);
    width_at(next_of(workers[at].as_slice(), done[at]))
}

fn width_at(next: Option<Directive>) -> u8
    ensures { result ≡ joint.width_at next }
{
    match next {
        Some(Directive::Do(job)) => job.width,
        _ => 0,
    }
}

// The workers of a turn have each done one directive more.
fn take_turn(workers: &[Items<Directive>], done: &mut [u32], turn: Turn)
    requires parts { (w : ℕ) → IfSome (slice_get workers.now w) (IsPart (length workers.now) w) }
    requires counted { length done.old ≡ length workers.now }
    requires goes { CanTurn workers.now (done_in done.old) turn }
    ensures counted { length done.new ≡ length workers.now }
    ensures done { done_in done.new ≡ joint.after_turn turn (done_in done.old) }
{
    match turn {
        Turn::Alone(worker) => advance(done, worker),
        Turn::Hands { source, target } => {
            advance(done, source);
            advance(done, target);
        }
    }
}

// A worker has done one directive more.
fn advance(done: &mut [u32], worker: u16)
    requires there { worker < length done.old }
    requires few { done_in done.old worker < 4294967295 }
    ensures counted { length done.new ≡ length done.old }
    ensures done { done_in done.new ≡ joint.with_one worker (done_in done.old) }
{
    done[usize::from(worker)] += 1;
}

// The lowest worker that hasn't ended, and where it stands.
fn waiting(workers: &[Items<Directive>], done: &[u32]) -> Option<Place>
    requires few { length workers.now ≤ 16 }
    requires counted { length done.now ≡ length workers.now }
    ensures { result ≡ joint.waiting (joint.lists_at workers.now) (done_in done.now) 0 (length workers.now) }
{
    for worker in 0..workers.len() {
        if stand(workers, done, worker as u64) != Stand::Ended {
            return Some(Place {
                worker: worker as u16,
                directive: done[worker],
            });
        }
    }
    None
}
