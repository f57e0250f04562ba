// Directives that a program is made of.
use mage_instr::{Directive, Job, Op, Spot};

macro_rules! spot {
    ($frame:literal) => {
        Spot {
            frame: $frame,
            offset: 0,
        }
    };
}

// An instruction of 32 bits on frame 0 and frame 1, to frame 0.
macro_rules! job {
    ($op:ident) => {
        Directive::Do(Job {
            op: Op::$op,
            width: 32,
            imm: 0,
            out: spot!(0),
            args: [spot!(0), spot!(1), spot!(0)],
        })
    };
}

// A page goes out and comes in again, and then 16 instructions follow.
macro_rules! block {
    ($op:ident) => {
        [
            Directive::IssueOut {
                slot: 0,
                frame: 1,
                page: 0,
            },
            Directive::FinishOut { slot: 0 },
            Directive::IssueIn { slot: 0, page: 0 },
            Directive::FinishIn { slot: 0, frame: 1 },
            job!($op),
            job!($op),
            job!($op),
            job!($op),
            job!($op),
            job!($op),
            job!($op),
            job!($op),
            job!($op),
            job!($op),
            job!($op),
            job!($op),
            job!($op),
            job!($op),
            job!($op),
            job!($op),
        ]
    };
}

/// With 16 additions.
pub const ADDS: [Directive; 20] = block!(Add);

/// With 16 multiplications.
pub const MULS: [Directive; 20] = block!(Mul);

/// Additions alone, on pages that stay.
pub const STAYS: [Directive; 16] = [job!(Add); 16];

macro_rules! constant {
    ($frame:literal $value:literal) => {
        Directive::Do(Job {
            op: Op::Const,
            width: 32,
            imm: $value,
            out: spot!($frame),
            args: [spot!(0), spot!(0), spot!(0)],
        })
    };
}

/// Before the blocks: frame 0 has 1, and frame 1 has 3.
pub const FIRST: [Directive; 4] = [
    Directive::Fresh { frame: 0, page: 0 },
    constant!(0 1),
    Directive::Fresh { frame: 1, page: 1 },
    constant!(1 3),
];

/// Behind them: what frame 0 has is put out.
pub const LAST: [Directive; 1] = [Directive::Do(Job {
    op: Op::Output,
    width: 32,
    imm: 0,
    out: spot!(0),
    args: [spot!(0), spot!(0), spot!(0)],
})];
