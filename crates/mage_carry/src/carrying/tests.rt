// Small programs, and memory programs of one worker that carry them or don't, by hand from the rules.
ghost use Rattle.std.specs.Prelude.{◌≡◌, ◌<◌, ◌∷◌, [], IfOk, length};
ghost use Rattle.mage_instr.specs.Sound.{IsSound};

use super::*;
use mage_instr::{Job, Op, Spot};
use sqlite_items::Items;
use std::test::Fail;

const NO_SPOT: Spot = Spot {
    frame: 0,
    offset: 0,
};

// Pages of 64 wires.
fn limits(frames: u32, buffer: u16) -> Limits {
    Limits {
        page: 64,
        frames,
        buffer,
        ahead: 0,
    }
}

// An instruction that takes at most one value.
fn instr(op: Op, width: u8, arg: u32) -> Instr
    ensures { result ≡ record { op = op; width = width; args = arg ∷ 0 ∷ 0 ∷ []; imm = 0 } }
{
    Instr {
        op,
        width,
        args: [arg, 0, 0],
        imm: 0,
    }
}

// An input at a spot.
fn input(width: u8, frame: u16, offset: u16) -> Directive {
    Directive::Do(Job {
        op: Op::Input,
        width,
        imm: 0,
        out: Spot { frame, offset },
        args: [NO_SPOT, NO_SPOT, NO_SPOT],
    })
}

// An output of what stands at a spot.
fn output(width: u8, frame: u16, offset: u16) -> Directive {
    Directive::Do(Job {
        op: Op::Output,
        width,
        imm: 0,
        out: NO_SPOT,
        args: [Spot { frame, offset }, NO_SPOT, NO_SPOT],
    })
}

fn fresh(frame: u16, page: u32) -> Directive {
    Directive::Fresh { frame, page }
}

fn no(directive: u32) -> Carry {
    Carry::No {
        worker: 0,
        directive,
    }
}

// The only worker's list.
fn only<T: Copy>(alloc: Global, items: &[T]) -> Result<Items<Items<T>>, Memory>
    ensures { IfOk result (λ all. all ≡ items.now ∷ []) }
{
    let mut all = Items::new(alloc);
    all.push(Items::from_slice(alloc, items)?)?;
    Ok(all)
}

// Whether this is the answer for a program and a memory program of one worker, whose store has one page.
fn answers(
    alloc: Global,
    instrs: &[Instr],
    limits: Limits,
    part: &[Directive],
    wanted: Carry,
) -> Result<bool, Memory>
    requires sound { IsSound instrs.now }
    requires count { length part.now < 4294967296 }
{
    let program = Program {
        workers: only(alloc, instrs)?,
        order: Items::new(alloc),
    };
    let plan = MemProgram {
        limits,
        stores: Items::from_slice(alloc, &[1])?,
        workers: only(alloc, part)?,
    };
    Ok(carries(alloc, &program, &plan)? == wanted)
}

// One bit that is handed in and out, in one frame.
fn bit(alloc: Global, part: &[Directive], wanted: Carry) -> Result<bool, Memory>
    requires { length part.now < 4294967296 }
{
    let instrs = [instr(Op::Input, 1, 0), instr(Op::Output, 1, 0)];
    answers(alloc, &instrs, limits(1, 0), part, wanted)
}

// The same, with the bit turned round.
fn negated_bit(alloc: Global, part: &[Directive], wanted: Carry) -> Result<bool, Memory>
    requires { length part.now < 4294967296 }
{
    let instrs = [
        instr(Op::Input, 1, 0),
        instr(Op::Not, 1, 0),
        instr(Op::Output, 1, 1),
    ];
    answers(alloc, &instrs, limits(1, 0), part, wanted)
}

// Two bytes that are handed in, of which the first is handed out: it stands at offset 8, the second elsewhere.
fn byte_beside(alloc: Global, offset: u16, wanted: Carry) -> Result<bool, Memory> {
    let instrs = [
        instr(Op::Input, 8, 0),
        instr(Op::Input, 8, 0),
        instr(Op::Output, 8, 0),
    ];
    let part = [input(8, 0, 8), input(8, 0, offset), output(8, 0, 8)];
    answers(alloc, &instrs, limits(1, 0), &part, wanted)
}

// Three values on a page each, of which the first two are handed out, in two frames with a slot. The second page goes
// to the store by the directive `go`, is written by `gone`, and comes back by `back`.
fn second_page(
    alloc: Global,
    go: Directive,
    gone: Directive,
    back: Directive,
    wanted: Carry,
) -> Result<bool, Memory> {
    let instrs = [
        instr(Op::Input, 64, 0),
        instr(Op::Input, 64, 0),
        instr(Op::Input, 64, 0),
        instr(Op::Output, 64, 0),
        instr(Op::Output, 64, 1),
    ];
    let part = [
        fresh(0, 0),
        input(64, 0, 0),
        fresh(1, 1),
        input(64, 1, 0),
        go,
        fresh(1, 2),
        input(64, 1, 0),
        output(64, 0, 0),
        gone,
        Directive::IssueIn { slot: 0, page: 0 },
        back,
        output(64, 0, 0),
    ];
    answers(alloc, &instrs, limits(2, 1), &part, wanted)
}

#[test]
fn a_bit_in_and_out(rt: HostRuntime) -> Result<(), Fail> {
    let alloc = rt.alloc();
    let fine = [fresh(0, 0), input(1, 0, 0), output(1, 0, 0)];
    assert!(rt; bit(alloc, &fine, Carry::Yes)?);
    // another program
    assert!(rt; negated_bit(alloc, &fine, no(2))?);
    // the value is looked for where it isn't
    let elsewhere = [fresh(0, 0), input(1, 0, 0), output(1, 0, 1)];
    assert!(rt; bit(alloc, &elsewhere, no(2))?);
    // the frame isn't there
    let outside = [fresh(1, 0)];
    assert!(rt; bit(alloc, &outside, no(0))?);
    // an instruction is left over
    let short = [fresh(0, 0), input(1, 0, 0)];
    assert!(rt; bit(alloc, &short, no(2))?);
    Ok(())
}

#[test]
fn the_last_wire_of_a_page(rt: HostRuntime) -> Result<(), Fail> {
    let alloc = rt.alloc();
    let last = [input(1, 0, 63), output(1, 0, 63)];
    assert!(rt; bit(alloc, &last, Carry::Yes)?);
    let behind = [input(1, 0, 64), output(1, 0, 64)];
    assert!(rt; bit(alloc, &behind, no(0))?);
    Ok(())
}

// A value that another one overlaps is gone.
#[test]
fn values_that_overlap(rt: HostRuntime) -> Result<(), Fail> {
    let alloc = rt.alloc();
    for offset in [0, 16] {
        assert!(rt; byte_beside(alloc, offset, Carry::Yes)?, "at {offset}");
    }
    for offset in [1, 8, 15] {
        assert!(rt; byte_beside(alloc, offset, no(2))?, "at {offset}");
    }
    Ok(())
}

#[test]
fn a_page_goes_and_comes_back(rt: HostRuntime) -> Result<(), Fail> {
    let alloc = rt.alloc();
    let go = Directive::IssueOut {
        slot: 0,
        frame: 1,
        page: 0,
    };
    let gone = Directive::FinishOut { slot: 0 };
    let ask = Directive::IssueIn { slot: 0, page: 0 };
    let back = Directive::FinishIn { slot: 0, frame: 0 };
    assert!(rt; second_page(alloc, go, gone, back, Carry::Yes)?);
    // it comes back into the frame of the third value, and is looked for in the first one's
    let wrong = Directive::FinishIn { slot: 0, frame: 1 };
    assert!(rt; second_page(alloc, go, gone, wrong, no(11))?);
    // the slot still writes, and then no slot reads
    assert!(rt; second_page(alloc, go, ask, back, no(8))?);
    assert!(rt; second_page(alloc, go, back, back, no(8))?);
    // the store has one page
    let outside = Directive::IssueOut {
        slot: 0,
        frame: 1,
        page: 1,
    };
    assert!(rt; second_page(alloc, outside, gone, back, no(4))?);
    // nothing was written, and no slot writes
    assert!(rt; second_page(alloc, ask, gone, back, no(4))?);
    assert!(rt; second_page(alloc, gone, gone, back, no(4))?);
    Ok(())
}
