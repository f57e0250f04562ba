// Rows of events.
use crate::programs::{summing, trading};
use crate::worlds::{plain, world_of_one, world_of_two, world_that_stops};
use mage_base::Memory;
use mage_circuit::TallyDriver;
use mage_instr::DriverFault;
use mage_plain::PlainDriver;
use mage_small_programs::swapping;
use mage_world::{ApplyError, Event, World};
use std::alloc::Global;
use std::test::Fail;

// The world of three inputs 7, 8 and 9, of which the second is swapped out and in.
fn swapped(alloc: Global) -> Result<World<PlainDriver>, Memory> {
    let driver = plain(alloc, vec![in alloc; 7, 8, 9]?)?;
    world_of_one(alloc, swapping(alloc)?, driver).ok_or(Memory)
}

// The world in which worker 1's 7 goes to worker 0, who has 5.
fn summed(alloc: Global) -> Result<World<PlainDriver>, Memory> {
    let first = plain(alloc, vec![in alloc; 5]?)?;
    let second = plain(alloc, vec![in alloc; 7]?)?;
    world_of_two(alloc, summing(alloc)?, first, second).ok_or(Memory)
}

// The world in which worker 1's 7 goes to worker 0, who has 5, and both move a page out and in.
fn traded(alloc: Global) -> Result<World<PlainDriver>, Memory> {
    let first = plain(alloc, vec![in alloc; 5]?)?;
    let second = plain(alloc, vec![in alloc; 7, 9]?)?;
    world_of_two(alloc, trading(alloc)?, first, second).ok_or(Memory)
}

// Whether no event is left after as many as are ready, of so many at most.
fn goes_to_its_end(world: &mut World<PlainDriver>, most: u32) -> bool {
    for _ in 0..most {
        match world.ready() {
            Some(event) => {
                if world.apply(event).is_err() {
                    return false;
                }
            }
            None => return true,
        }
    }
    false
}

// Whether all of these events are done, one after the other.
fn all_done(world: &mut World<PlainDriver>, events: &[Event]) -> bool {
    for event in events {
        if world.apply(*event).is_err() {
            return false;
        }
    }
    true
}

// Whether an event isn't enabled.
fn is_refused(world: &mut World<PlainDriver>, event: Event) -> bool {
    world.apply(event) == Err(ApplyError::NotEnabled)
}

// What worker n put out.
fn output(world: &World<PlainDriver>, n: usize, k: usize) -> Option<u128> {
    world.drivers().get(n)?.outputs().get(k).copied()
}

#[test]
fn a_page_goes_to_the_store_and_comes_back(rt: HostRuntime) -> Result<(), Fail> {
    let mut world = swapped(rt.alloc())?;
    let act = Event::Do { w: 0 };
    assert_eq!(rt; world.ready(), Some(act));
    let ask = Event::Ask { w: 0 };
    let finish = Event::Finish { w: 0 };
    let claim = Event::Claim { w: 0, slot: 0 };
    let serve = Event::Serve { w: 0, slot: 0 };
    assert!(rt; is_refused(&mut world, finish));
    assert!(rt; is_refused(&mut world, Event::Pop { w: 0 }));
    assert!(rt; is_refused(&mut world, Event::Do { w: 1 }));
    assert!(rt; all_done(&mut world, &[act, act, act, act]));
    assert!(rt; is_refused(&mut world, act));
    assert!(rt; is_refused(&mut world, claim));
    assert!(rt; all_done(&mut world, &[ask, claim]));
    assert!(rt; is_refused(&mut world, claim));
    assert!(rt; is_refused(&mut world, Event::Claim { w: 0, slot: 1 }));
    assert!(rt; all_done(&mut world, &[act, act, act]));
    assert!(rt; is_refused(&mut world, finish));
    assert!(rt; all_done(&mut world, &[serve]));
    assert!(rt; is_refused(&mut world, serve));
    assert!(rt; all_done(&mut world, &[finish, ask]));
    assert!(rt; is_refused(&mut world, finish));
    assert!(rt; all_done(&mut world, &[claim, serve, finish, act, act]));
    assert!(rt; is_refused(&mut world, act));
    assert_eq!(rt; output(&world, 0, 0), Some(7));
    assert_eq!(rt; output(&world, 0, 1), Some(8));
    assert_eq!(rt; output(&world, 0, 2), None);
    Ok(())
}

#[test]
fn a_full_link_takes_no_wire(rt: HostRuntime) -> Result<(), Fail> {
    let mut world = summed(rt.alloc())?;
    let push = Event::Push { w: 1 };
    let pop = Event::Pop { w: 0 };
    let act = Event::Do { w: 0 };
    assert!(rt;
        all_done(
            &mut world,
            &[act, act, Event::Do { w: 1 }, Event::Do { w: 1 }]
        )
    );
    assert!(rt; is_refused(&mut world, pop));
    assert!(rt; all_done(&mut world, &[push]));
    assert!(rt; is_refused(&mut world, push));
    assert!(rt; all_done(&mut world, &[pop]));
    assert!(rt; is_refused(&mut world, pop));
    for _ in 0..7 {
        assert!(rt; all_done(&mut world, &[push, pop]));
    }
    assert!(rt; is_refused(&mut world, push));
    assert!(rt; all_done(&mut world, &[Event::Do { w: 1 }, act, act, act]));
    assert!(rt; is_refused(&mut world, act));
    assert_eq!(rt; output(&world, 0, 0), Some(12));
    Ok(())
}

#[test]
fn ready_leads_to_the_end(rt: HostRuntime) -> Result<(), Fail> {
    let mut world = traded(rt.alloc())?;
    assert!(rt; goes_to_its_end(&mut world, 100));
    assert_eq!(rt; world.ready(), None);
    assert!(rt; is_refused(&mut world, Event::Do { w: 0 }));
    assert!(rt; is_refused(&mut world, Event::Do { w: 1 }));
    assert_eq!(rt; output(&world, 0, 0), Some(12));
    assert_eq!(rt; output(&world, 0, 1), None);
    assert_eq!(rt; output(&world, 1, 0), None);
    Ok(())
}

#[test]
fn ready_finds_transfers_that_wait(rt: HostRuntime) -> Result<(), Fail> {
    let mut world = swapped(rt.alloc())?;
    let act = Event::Do { w: 0 };
    let ask = Event::Ask { w: 0 };
    let claim = Event::Claim { w: 0, slot: 0 };
    let serve = Event::Serve { w: 0, slot: 0 };
    assert!(rt; all_done(&mut world, &[act, act, act, act, ask, act, act, act]));
    assert_eq!(rt; world.ready(), Some(claim));
    assert!(rt; all_done(&mut world, &[claim]));
    assert_eq!(rt; world.ready(), Some(serve));
    assert!(rt; all_done(&mut world, &[serve]));
    assert_eq!(rt; world.ready(), Some(Event::Finish { w: 0 }));
    Ok(())
}

// The world in which the driver stops at the second input.
fn stopping(alloc: Global) -> Result<World<TallyDriver>, Memory> {
    world_that_stops(alloc, swapping(alloc)?, 1).ok_or(Memory)
}

#[test]
fn a_failed_driver_ends_its_worker(rt: HostRuntime) -> Result<(), Fail> {
    let mut world = stopping(rt.alloc())?;
    let act = Event::Do { w: 0 };
    for _ in 0..3 {
        assert_eq!(rt; world.apply(act), Ok(()));
    }
    let fault = DriverFault::Short { at: 1 };
    assert_eq!(rt; world.apply(act), Err(ApplyError::Driver(fault)));
    assert_eq!(rt; world.apply(act), Err(ApplyError::NotEnabled));
    assert_eq!(rt; world.ready(), None);
    Ok(())
}
