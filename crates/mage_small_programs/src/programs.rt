// The programs.
ghost use Rattle.std.specs.Prelude.{◌≡◌, length, IfOk};
ghost use Rattle.mage_directives.specs.Directives.{IsMemProgram};

use crate::making::{one_worker, two_workers};
use mage_base::Memory;
use mage_instr::{Directive, Job, MemProgram, Op, Spot};
use std::alloc::Global;

const NO_SPOT: Spot = Spot {
    frame: 0,
    offset: 0,
};

const SECOND: Spot = Spot {
    frame: 1,
    offset: 0,
};

// An instruction on the first wires of frames.
macro_rules! job {
    ($op:ident $imm:literal $out:literal $arg:literal) => {
        job!($op 64 $imm $out $arg)
    };
    ($op:ident $width:literal $imm:literal $out:literal $arg:literal) => {
        Directive::Do(Job {
            op: Op::$op,
            width: $width,
            imm: $imm,
            out: Spot {
                frame: $out,
                offset: 0,
            },
            args: [
                Spot {
                    frame: $arg,
                    offset: 0,
                },
                NO_SPOT,
                NO_SPOT,
            ],
        })
    };
}

macro_rules! fresh {
    ($frame:literal $page:literal) => {
        Directive::Fresh {
            frame: $frame,
            page: $page,
        }
    };
}

// Three values in two frames: the second is written, read again and put out.
const SWAPPING: [Directive; 12] = [
    fresh!(0 0),
    job!(Input 0 0 0),
    fresh!(1 1),
    job!(Input 0 1 0),
    Directive::IssueOut {
        slot: 0,
        frame: 1,
        page: 0,
    },
    fresh!(1 2),
    job!(Input 0 1 0),
    job!(Output 0 0 0),
    Directive::FinishOut { slot: 0 },
    Directive::IssueIn { slot: 0, page: 0 },
    Directive::FinishIn { slot: 0, frame: 0 },
    job!(Output 0 0 0),
];

/// Three values of the garbler, of which the first two are put out, over two frames: the second goes to the store and comes back.
pub fn swapping(alloc: Global) -> Result<MemProgram, Memory>
    ensures fields { IfOk result IsMemProgram }
    ensures page { IfOk result (λ plan. plan.limits.page ≡ 64) }
    ensures workers { IfOk result (λ plan. length plan.workers ≡ 1) }
{
    one_worker(alloc, 2, &SWAPPING)
}

/// Two workers who each do this.
pub fn swapping_twice(alloc: Global) -> Result<MemProgram, Memory>
    ensures fields { IfOk result IsMemProgram }
    ensures page { IfOk result (λ plan. plan.limits.page ≡ 64) }
    ensures workers { IfOk result (λ plan. length plan.workers ≡ 2) }
{
    two_workers(alloc, &SWAPPING, &SWAPPING)
}

/// A value of each party is put out, the garbler's first.
pub fn both_parties(alloc: Global) -> Result<MemProgram, Memory>
    ensures fields { IfOk result IsMemProgram }
    ensures page { IfOk result (λ plan. plan.limits.page ≡ 64) }
    ensures workers { IfOk result (λ plan. length plan.workers ≡ 1) }
{
    one_worker(
        alloc,
        2,
        &[
            fresh!(0 0),
            job!(Input 0 0 0),
            job!(Output 0 0 0),
            fresh!(1 1),
            job!(Input 1 1 0),
            job!(Output 0 0 1),
        ],
    )
}

/// The second worker sends a value of the garbler; the first adds it to its own, and puts out the sum and what it was sent.
pub fn adding(alloc: Global) -> Result<MemProgram, Memory>
    ensures fields { IfOk result IsMemProgram }
    ensures page { IfOk result (λ plan. plan.limits.page ≡ 64) }
    ensures workers { IfOk result (λ plan. length plan.workers ≡ 2) }
{
    two_workers(
        alloc,
        &[
            fresh!(0 0),
            job!(Input 0 0 0),
            fresh!(1 1),
            job!(Recv 1 1 0),
            Directive::Do(Job {
                op: Op::Add,
                width: 64,
                imm: 0,
                out: NO_SPOT,
                args: [NO_SPOT, SECOND, NO_SPOT],
            }),
            job!(Output 0 0 0),
            job!(Output 0 0 1),
        ],
        &[fresh!(0 0), job!(Input 0 0 0), job!(Send 0 0 0)],
    )
}

/// A value of one wire of the garbler, in one frame: it is written to the store, and put out from the frame that it was written from.
pub fn keeping(alloc: Global) -> Result<MemProgram, Memory>
    ensures { IfOk result IsMemProgram }
{
    one_worker(
        alloc,
        1,
        &[
            fresh!(0 0),
            job!(Input 1 0 0 0),
            Directive::IssueOut {
                slot: 0,
                frame: 0,
                page: 0,
            },
            Directive::FinishOut { slot: 0 },
            job!(Output 1 0 0 0),
        ],
    )
}

/// The first worker sends a value of the garbler to the second, who puts it out.
pub fn handing_over(alloc: Global) -> Result<MemProgram, Memory>
    ensures { IfOk result IsMemProgram }
{
    two_workers(
        alloc,
        &[fresh!(0 0), job!(Input 0 0 0), job!(Send 1 0 0)],
        &[fresh!(0 0), job!(Recv 0 0 0), job!(Output 0 0 0)],
    )
}
