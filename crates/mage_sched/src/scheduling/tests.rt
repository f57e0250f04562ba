ghost use Rattle.std.specs.Prelude.{◌≤◌};
ghost use Rattle.mage_instr.specs.declared.instr.TheConstants.{NEVER};
ghost use Rattle.mage_sched.specs.Schedule.{jobs_of};

use super::*;
use mage_instr::{Job, Op, Spot, Tight};
use std::process::Abort;
use std::test::Fail;

const NOWHERE: Spot = Spot {
    frame: 0,
    offset: 0,
};

const JOB: Job = Job {
    op: Op::Const,
    width: 1,
    imm: 0,
    out: NOWHERE,
    args: [NOWHERE; 3],
};

const DO: Replaced = Replaced::Do(JOB);

macro_rules! entry {
    ($kind:ident $frame:literal $page:literal) => {
        Replaced::$kind { frame: $frame, page: $page }
    };
}

macro_rules! fresh {
    ($frame:literal $page:literal) => {
        Directive::Fresh { frame: $frame, page: $page }
    };
}

macro_rules! read {
    ($slot:literal $page:literal) => {
        Directive::IssueIn { slot: $slot, page: $page }
    };
}

macro_rules! take {
    ($slot:literal $frame:literal) => {
        Directive::FinishIn { slot: $slot, frame: $frame }
    };
}

macro_rules! issued {
    ($slot:literal $frame:literal $page:literal) => {
        Directive::IssueOut { slot: $slot, frame: $frame, page: $page }
    };
}

macro_rules! freed {
    ($slot:literal) => {
        Directive::FinishOut { slot: $slot }
    };
}

const DONE: Directive = Directive::Do(JOB);

// Three values on a page each, in two frames. The first two are handed out: page 1 leaves for page 2, and comes back.
const ROUND: [Replaced; 10] = [
    entry!(Fresh 0 0),
    DO,
    entry!(Fresh 1 1),
    DO,
    entry!(Save 1 1),
    entry!(Fresh 1 2),
    DO,
    DO,
    entry!(Load 0 1),
    DO,
];

// The directives of a list are these, and so many store pages are named.
fn has(
    rt: &(impl AllocGlobal + Abort),
    list: &[Replaced],
    buffer: u16,
    expected: &[Directive],
    count: u32,
) -> Result<(), Fail>
    requires { jobs_of list.now ≤ NEVER }
{
    let (found, pages) = schedule(rt.alloc(), list, buffer, 64)?;
    assert_eq!(rt; found.as_slice(), expected);
    assert_eq!(rt; pages, count);
    Ok(())
}

// With one slot a read is issued where it is due, with two where its page left.
#[test]
fn reads_are_issued_as_far_ahead_as_slots_allow(rt: HostRuntime) -> Result<(), Fail> {
    let due = [
        fresh!(0 0),
        DONE,
        fresh!(1 1),
        DONE,
        issued!(0 1 0),
        fresh!(1 2),
        DONE,
        DONE,
        freed!(0),
        read!(0 0),
        take!(0 0),
        DONE,
    ];
    has(&rt, &ROUND, 1, &due, 1)?;
    let ahead = [
        fresh!(0 0),
        DONE,
        fresh!(1 1),
        DONE,
        issued!(0 1 0),
        fresh!(1 2),
        freed!(0),
        read!(0 0),
        DONE,
        DONE,
        take!(0 0),
        DONE,
    ];
    has(&rt, &ROUND, 2, &ahead, 1)
}

// Before they have store pages, the transfers of page 1 name page 1.
#[test]
fn a_schedule_by_page_names_the_pages_themselves(rt: HostRuntime) -> Result<(), Fail> {
    let found = schedule_by_page(rt.alloc(), &ROUND, 1, 64)?;
    let expected = [
        fresh!(0 0),
        DONE,
        fresh!(1 1),
        DONE,
        issued!(0 1 1),
        fresh!(1 2),
        DONE,
        DONE,
        freed!(0),
        read!(0 1),
        take!(0 0),
        DONE,
    ];
    assert_eq!(rt; found.as_slice(), expected.as_slice());
    Ok(())
}

#[test]
fn a_buffer_without_slots_is_refused_where_a_page_leaves(rt: HostRuntime) -> Result<(), Fail> {
    let tight = Tight::Buffer { instr: 2 };
    let found = schedule(rt.alloc(), &ROUND, 0, 64).err();
    assert_eq!(rt; found, Some(ScheduleError::Tight(tight)));
    has(&rt, &[entry!(Fresh 0 0), DO], 0, &[fresh!(0 0), DONE], 0)
}

// Three pages, which leave in the gaps 3, 11 and 5, and are due at 10, 12 and 20.
const THREE: [Replaced; 33] = [
    entry!(Fresh 0 0),
    entry!(Fresh 1 1),
    entry!(Fresh 2 2),
    DO,
    DO,
    DO,
    entry!(Save 0 0),
    entry!(Fresh 0 3),
    DO,
    DO,
    entry!(Save 2 2),
    entry!(Fresh 2 4),
    DO,
    DO,
    DO,
    DO,
    DO,
    entry!(Load 3 0),
    DO,
    entry!(Save 1 1),
    entry!(Fresh 1 5),
    DO,
    entry!(Load 4 1),
    DO,
    DO,
    DO,
    DO,
    DO,
    DO,
    DO,
    DO,
    entry!(Load 5 2),
    DO,
];

// The gap of each read's issue.
fn gaps_of(rt: &(impl AllocGlobal + Abort), buffer: u16, expected: &[u64]) -> Result<(), Fail> {
    let (directives, _) = schedule(rt.alloc(), &THREE, buffer, 4)?;
    let mut gaps = Vec::new(rt.alloc());
    let mut gap = 0u64;
    for directive in directives.as_slice() {
        match directive {
            Directive::Do(_) => gap = gap.saturating_add(1),
            Directive::IssueIn { .. } => gaps.push(gap)?,
            _ => {}
        }
    }
    assert_eq!(rt; gaps.as_slice(), expected);
    Ok(())
}

#[test]
fn reads_are_issued_in_their_gaps(rt: HostRuntime) -> Result<(), Fail> {
    gaps_of(&rt, 2, &[6, 11, 16])?;
    gaps_of(&rt, 1, &[10, 12, 20])
}

// Three pages leave, with two slots: the third write waits for the first. Then they come back, the third first.
#[test]
fn the_write_that_was_issued_first_makes_room(rt: HostRuntime) -> Result<(), Fail> {
    let list = [
        entry!(Fresh 0 0),
        entry!(Fresh 1 1),
        entry!(Fresh 2 2),
        DO,
        entry!(Save 0 0),
        entry!(Fresh 0 3),
        DO,
        entry!(Save 1 1),
        entry!(Fresh 1 4),
        DO,
        entry!(Save 2 2),
        entry!(Fresh 2 5),
        DO,
        entry!(Load 0 2),
        DO,
        entry!(Load 1 0),
        DO,
        entry!(Load 2 1),
        DO,
    ];
    let expected = [
        fresh!(0 0),
        fresh!(1 1),
        fresh!(2 2),
        DONE,
        issued!(0 0 0),
        fresh!(0 3),
        DONE,
        issued!(1 1 1),
        fresh!(1 4),
        DONE,
        freed!(0),
        issued!(0 2 2),
        fresh!(2 5),
        DONE,
        freed!(0),
        read!(0 2),
        take!(0 0),
        DONE,
        read!(0 0),
        take!(0 1),
        DONE,
        freed!(1),
        read!(0 1),
        take!(0 2),
        DONE,
    ];
    let (found, pages) = schedule(rt.alloc(), &list, 2, 0)?;
    assert_eq!(rt; found.as_slice(), expected.as_slice());
    assert_eq!(rt; pages, 3);
    Ok(())
}
