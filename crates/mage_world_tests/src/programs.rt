// Memory programs of two workers, with frames of 64 wires and values of 8.
ghost use Rattle.std.specs.Prelude.{IfOk};
ghost use Rattle.mage_directives.specs.Directives.{IsMemProgram};

use mage_base::Memory;
use mage_instr::{Directive, Job, MemProgram, Op, Spot};
use mage_small_programs::two_workers;
use std::alloc::Global;

const NO_SPOT: Spot = Spot {
    frame: 0,
    offset: 0,
};

macro_rules! job {
    ($op:ident $width:literal $imm:literal $out:expr, $first:expr, $second:expr) => {
        Directive::Do(Job {
            op: Op::$op,
            width: $width,
            imm: $imm,
            out: $out,
            args: [$first, $second, NO_SPOT],
        })
    };
}

/// Worker 1 sends its input of 8 wires to worker 0, who adds its own and puts out the sum.
pub(crate) fn summing(alloc: Global) -> Result<MemProgram, Memory>
    ensures { IfOk result IsMemProgram }
{
    two_workers(
        alloc,
        &[
            Directive::Fresh { frame: 0, page: 0 },
            job!(Input 8 0 NO_SPOT, NO_SPOT, NO_SPOT),
            job!(Recv 8 1 Spot { frame: 0, offset: 8 }, NO_SPOT, NO_SPOT),
            job!(Add 8 0 Spot { frame: 0, offset: 16 }, NO_SPOT, Spot { frame: 0, offset: 8 }),
            job!(Output 8 0 NO_SPOT, Spot { frame: 0, offset: 16 }, NO_SPOT),
        ],
        &[
            Directive::Fresh { frame: 0, page: 0 },
            job!(Input 8 0 NO_SPOT, NO_SPOT, NO_SPOT),
            job!(Send 8 0 NO_SPOT, NO_SPOT, NO_SPOT),
        ],
    )
}

/// Both workers send a page to the store and bring it back: worker 1 takes two inputs and sends the first to worker 0, who adds its
/// own and puts out the sum.
pub(crate) fn trading(alloc: Global) -> Result<MemProgram, Memory>
    ensures { IfOk result IsMemProgram }
{
    two_workers(
        alloc,
        &[
            Directive::Fresh { frame: 0, page: 0 },
            job!(Input 8 0 NO_SPOT, NO_SPOT, NO_SPOT),
            Directive::IssueOut {
                slot: 0,
                frame: 0,
                page: 0,
            },
            Directive::Fresh { frame: 1, page: 1 },
            job!(Recv 8 1 Spot { frame: 1, offset: 0 }, NO_SPOT, NO_SPOT),
            Directive::FinishOut { slot: 0 },
            Directive::IssueIn { slot: 0, page: 0 },
            Directive::FinishIn { slot: 0, frame: 0 },
            job!(Add 8 0 Spot { frame: 0, offset: 8 }, NO_SPOT, Spot { frame: 1, offset: 0 }),
            job!(Output 8 0 NO_SPOT, Spot { frame: 0, offset: 8 }, NO_SPOT),
        ],
        &[
            Directive::Fresh { frame: 0, page: 0 },
            job!(Input 8 0 NO_SPOT, NO_SPOT, NO_SPOT),
            Directive::IssueOut {
                slot: 0,
                frame: 0,
                page: 0,
            },
            Directive::Fresh { frame: 1, page: 1 },
            job!(Input 8 0 Spot { frame: 1, offset: 0 }, NO_SPOT, NO_SPOT),
            Directive::FinishOut { slot: 0 },
            Directive::IssueIn { slot: 0, page: 0 },
            Directive::FinishIn { slot: 0, frame: 0 },
            job!(Send 8 0 NO_SPOT, NO_SPOT, NO_SPOT),
        ],
    )
}
