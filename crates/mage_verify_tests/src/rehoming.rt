// Small plans of one worker with pages of 64 wires, whose store pages were given by hand from the rule.
use mage_instr::{Directive, Job, Limits, MemProgram, Op, Spot};
use mage_rehome::rehome;
use mage_small_programs::one_worker_over;
use mage_verify::verify;
use sqlite_items::Items;
use std::test::Fail;

// Whether a memory program has one worker, with so many store pages and these directives, within the limits.
fn is_one_worker(plan: &MemProgram, pages: u32, directives: &[Directive]) -> bool {
    let limits = Limits {
        page: 64,
        frames: 2,
        buffer: 1,
        ahead: 0,
    };
    plan.limits == limits
        && plan.stores.as_slice() == [pages].as_slice()
        && plan.workers.len() == 1
        && has_first(plan.workers.as_slice(), directives)
}

fn has_first(workers: &[Items<Directive>], directives: &[Directive]) -> bool {
    match workers.first() {
        Some(own) => own.as_slice() == directives,
        None => false,
    }
}

macro_rules! fresh {
    ($frame:literal $page:literal) => {
        Directive::Fresh { frame: $frame, page: $page }
    };
}

macro_rules! read {
    ($page:literal) => {
        Directive::IssueIn { slot: 0, page: $page }
    };
}

macro_rules! take {
    ($frame:literal) => {
        Directive::FinishIn { slot: 0, frame: $frame }
    };
}

macro_rules! issued {
    ($frame:literal $page:literal) => {
        Directive::IssueOut { slot: 0, frame: $frame, page: $page }
    };
}

const WRITTEN: Directive = Directive::FinishOut { slot: 0 };

const NO_SPOT: Spot = Spot {
    frame: 0,
    offset: 0,
};

// A value of the first party that comes into a frame.
macro_rules! input {
    ($frame:literal) => {
        Directive::Do(Job {
            op: Op::Input,
            width: 64,
            imm: 0,
            out: Spot { frame: $frame, offset: 0 },
            args: [NO_SPOT, NO_SPOT, NO_SPOT],
        })
    };
}

// The value in frame 0 is handed out.
const OUTPUT: Directive = Directive::Do(Job {
    op: Op::Output,
    width: 64,
    imm: 0,
    out: NO_SPOT,
    args: [NO_SPOT, NO_SPOT, NO_SPOT],
});

// Three values on a page each in two frames, of which the second leaves and comes back: page 1 is kept in store page 0.
#[test]
fn the_page_that_leaves_takes_the_first_store_page(rt: HostRuntime) -> Result<(), Fail> {
    let directives = [
        fresh!(0 0),
        input!(0),
        fresh!(1 1),
        input!(1),
        issued!(1 1),
        fresh!(1 2),
        input!(1),
        OUTPUT,
        WRITTEN,
        read!(1),
        take!(0),
        OUTPUT,
    ];
    let plan = one_worker_over(rt.alloc(), 2, 2, &directives)?;
    let renamed = rehome(rt.alloc(), verify(rt.alloc(), plan)?)?;
    let expected = [
        fresh!(0 0),
        input!(0),
        fresh!(1 1),
        input!(1),
        issued!(1 0),
        fresh!(1 2),
        input!(1),
        OUTPUT,
        WRITTEN,
        read!(0),
        take!(0),
        OUTPUT,
    ];
    assert!(rt; is_one_worker(&renamed, 1, &expected));
    Ok(())
}

// Page 7 lets store page 0 go where it was last read, and page 9 takes it, while page 4 keeps store page 1.
#[test]
fn a_store_page_is_used_again(rt: HostRuntime) -> Result<(), Fail> {
    let directives = [
        issued!(0 7),
        WRITTEN,
        issued!(1 4),
        WRITTEN,
        read!(7),
        take!(0),
        issued!(0 9),
        WRITTEN,
        read!(4),
        take!(1),
        read!(9),
        take!(0),
    ];
    let plan = one_worker_over(rt.alloc(), 2, 10, &directives)?;
    let renamed = rehome(rt.alloc(), verify(rt.alloc(), plan)?)?;
    let expected = [
        issued!(0 0),
        WRITTEN,
        issued!(1 1),
        WRITTEN,
        read!(0),
        take!(0),
        issued!(0 0),
        WRITTEN,
        read!(1),
        take!(1),
        read!(0),
        take!(0),
    ];
    assert!(rt; is_one_worker(&renamed, 2, &expected));
    Ok(())
}

// Page 5 is written again and keeps its store page; page 8 is never read, and lets its own go when it was written.
#[test]
fn a_page_is_written_twice_and_one_never_read(rt: HostRuntime) -> Result<(), Fail> {
    let directives = [
        issued!(0 8),
        WRITTEN,
        issued!(0 5),
        WRITTEN,
        issued!(1 3),
        WRITTEN,
        issued!(1 5),
        WRITTEN,
        read!(3),
        take!(0),
        read!(5),
        take!(1),
    ];
    let plan = one_worker_over(rt.alloc(), 2, 9, &directives)?;
    let renamed = rehome(rt.alloc(), verify(rt.alloc(), plan)?)?;
    let expected = [
        issued!(0 0),
        WRITTEN,
        issued!(0 0),
        WRITTEN,
        issued!(1 1),
        WRITTEN,
        issued!(1 0),
        WRITTEN,
        read!(1),
        take!(0),
        read!(0),
        take!(1),
    ];
    assert!(rt; is_one_worker(&renamed, 2, &expected));
    Ok(())
}
