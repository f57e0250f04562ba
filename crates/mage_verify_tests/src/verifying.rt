// Small programs with one frame, one slot and pages of 64 wires, judged by hand from the rules.
ghost use Rattle.std.specs.Prelude.{◌<◌, length};
ghost use Rattle.mage_directives.specs.Directives.{IsMemProgram};
ghost use Rattle.mage_verify.specs.Literals.{AreDirectives};

use mage_base::Memory;
use mage_instr::{Directive, Job, Limits, MemProgram, Op, Spot};
use mage_small_programs::{one_worker, two_workers};
use mage_verify::{Part, VerifyFault, verify};
use std::alloc::Global;
use std::test::Fail;

// What is wrong with a program.
fn fault_of(alloc: Global, plan: MemProgram) -> Option<VerifyFault>
    requires { IsMemProgram plan }
{
    verify(alloc, plan).err()
}

// What is wrong with a program of one worker, whose store has one page.
fn own_fault(alloc: Global, directives: &[Directive]) -> Result<Option<VerifyFault>, Memory>
    requires count { length directives.now < 100 }
    requires fields { AreDirectives 1 0 directives.now }
{
    let plan = one_worker(alloc, 1, directives)?;
    Ok(fault_of(alloc, plan))
}

// Whether the issue of a write leaves its frame, where the directive is one.
fn leaves(part: &Part, directive: u32) -> Option<bool> {
    match part.directives().get(directive as usize).copied() {
        Some(Directive::IssueOut { .. }) => Some(part.leaves(directive)),
        _ => None,
    }
}

const NO_SPOT: Spot = Spot {
    frame: 0,
    offset: 0,
};

// An instruction on the first wires of frame 0.
macro_rules! job {
    ($op:ident $width:literal $imm:literal) => {
        Directive::Do(Job {
            op: Op::$op,
            width: $width,
            imm: $imm,
            out: NO_SPOT,
            args: [NO_SPOT, NO_SPOT, NO_SPOT],
        })
    };
}

const FRESH: Directive = Directive::Fresh { frame: 0, page: 0 };

const ISSUE_OUT: Directive = Directive::IssueOut {
    slot: 0,
    frame: 0,
    page: 0,
};

const FINISH_OUT: Directive = Directive::FinishOut { slot: 0 };

const ISSUE_IN: Directive = Directive::IssueIn { slot: 0, page: 0 };

const FINISH_IN: Directive = Directive::FinishIn { slot: 0, frame: 0 };

// A page is written and read again: each finish finds its slot as it has to be, and the issue leaves the frame.
#[test]
fn a_page_goes_out_and_comes_in(rt: HostRuntime) -> Result<(), Fail> {
    let directives = [FRESH, ISSUE_OUT, FINISH_OUT, ISSUE_IN, FINISH_IN];
    let plan = one_worker(rt.alloc(), 1, &directives)?;
    let parts = verify(rt.alloc(), plan)?.parts();
    assert_eq!(rt; parts.len(), 1);
    assert_eq!(rt; parts[0].worker(), 0);
    let limits = Limits {
        page: 64,
        frames: 1,
        buffer: 1,
        ahead: 0,
    };
    assert!(rt; parts[0].limits() == limits);
    assert_eq!(rt; parts[0].store_pages(), 1);
    assert_eq!(rt; parts[0].directives(), directives.as_slice());
    assert_eq!(rt; leaves(&parts[0], 1), Some(true));
    Ok(())
}

// What was written is handed out behind the write, from the frame that it was written from.
#[test]
fn a_frame_that_is_used_again_is_not_left(rt: HostRuntime) -> Result<(), Fail> {
    let directives = [
        FRESH,
        job!(Input 1 0),
        ISSUE_OUT,
        FINISH_OUT,
        job!(Output 1 0),
    ];
    let plan = one_worker(rt.alloc(), 1, &directives)?;
    let parts = verify(rt.alloc(), plan)?.parts();
    assert_eq!(rt; parts.len(), 1);
    assert_eq!(rt; leaves(&parts[0], 2), Some(false));
    Ok(())
}

// Each fault of a worker by itself: an idle slot is finished; a second frame, a second store page; a page is read that no
// finished write stored; a slot in flight is issued, or is in flight at the end.
#[test]
fn a_worker_has_a_fault_by_itself(rt: HostRuntime) -> Result<(), Fail> {
    let alloc = rt.alloc();
    let slot = |directive: u32| {
        Some(VerifyFault::SlotState {
            worker: 0,
            directive,
        })
    };
    let range = Some(VerifyFault::Range {
        worker: 0,
        directive: 0,
    });
    let page = Some(VerifyFault::PageState {
        worker: 0,
        directive: 0,
    });
    assert_eq!(rt; own_fault(alloc, &[FINISH_IN])?, slot(0));
    assert_eq!(rt; own_fault(alloc, &[FINISH_OUT])?, slot(0));
    let second_frame = Directive::Fresh { frame: 1, page: 0 };
    assert_eq!(rt; own_fault(alloc, &[second_frame])?, range);
    let second_page = Directive::IssueIn { slot: 0, page: 1 };
    assert_eq!(rt; own_fault(alloc, &[second_page])?, range);
    assert_eq!(rt; own_fault(alloc, &[ISSUE_IN])?, page);
    assert_eq!(rt; own_fault(alloc, &[ISSUE_OUT, ISSUE_OUT])?, slot(1));
    assert_eq!(rt; own_fault(alloc, &[FRESH, ISSUE_OUT])?, slot(2));
    Ok(())
}

// Two workers that each wait for the other one's value; two that each wait to hand one over; one that sends 1 bit where 2 are
// taken; and two that go on.
#[test]
fn two_workers_run_together(rt: HostRuntime) -> Result<(), Fail> {
    let alloc = rt.alloc();
    let links = Some(VerifyFault::Links {
        worker: 0,
        directive: 0,
    });
    let width = Some(VerifyFault::Width {
        worker: 1,
        directive: 0,
    });
    let plan = two_workers(
        alloc,
        &[job!(Recv 1 1), job!(Send 1 1)],
        &[job!(Recv 1 0), job!(Send 1 0)],
    )?;
    assert_eq!(rt; fault_of(alloc, plan), links);
    let plan = two_workers(
        alloc,
        &[job!(Send 1 1), job!(Recv 1 1)],
        &[job!(Send 1 0), job!(Recv 1 0)],
    )?;
    assert_eq!(rt; fault_of(alloc, plan), links);
    let plan = two_workers(alloc, &[job!(Send 1 1)], &[job!(Recv 2 0)])?;
    assert_eq!(rt; fault_of(alloc, plan), width);
    let plan = two_workers(
        alloc,
        &[FRESH, job!(Recv 1 1), job!(Send 1 1)],
        &[job!(Send 1 0), job!(Recv 1 0)],
    )?;
    assert_eq!(rt; fault_of(alloc, plan), None);
    Ok(())
}
