// Instructions in plain, with their results worked out by hand.
use crate::done;
use crate::holding::holds;
use mage_base::Memory;
use mage_instr::{Job, Op, Spot};

// The spot of a value that an instruction doesn't have.
const NONE: Spot = Spot {
    frame: 0,
    offset: 0,
};

fn spot(frame: u16, offset: u16) -> Spot {
    Spot { frame, offset }
}

fn constant(width: u8, value: u64, out: Spot) -> Job {
    job(Op::Const, width, value, out, [NONE, NONE, NONE])
}

fn output(width: u8, from: Spot) -> Job {
    job(Op::Output, width, 0, spot(1, 20), [from, NONE, NONE])
}

fn job(op: Op, width: u8, imm: u64, out: Spot, args: [Spot; 3]) -> Job {
    Job {
        op,
        width,
        imm,
        out,
        args,
    }
}

#[test]
fn adds(rt: HostRuntime) -> Result<(), Memory> {
    let a = spot(0, 3);
    let b = spot(1, 40);
    let sum = spot(0, 56);
    let jobs = [
        constant(8, 200, a),
        constant(8, 100, b),
        job(Op::Add, 8, 0, sum, [a, b, NONE]),
        output(8, sum),
    ];
    let (bank, driver) = done(rt.alloc(), &jobs)?;
    assert_eq!(rt; driver.outputs(), [44].as_slice());
    assert!(rt; holds(bank.as_slice(), 0, 0, &[0, 0, 0, 0, 0, 0, 1, 0, 0, 1, 1, 0]));
    assert!(rt; holds(bank.as_slice(), 0, 12, &[0; 44]));
    assert!(rt; holds(bank.as_slice(), 0, 56, &[0, 0, 1, 1, 0, 1, 0, 0]));
    assert!(rt; holds(bank.as_slice(), 1, 39, &[0, 0, 0, 1, 0, 0, 1, 1, 0, 0]));
    Ok(())
}

#[test]
fn compares_in_the_last_wire_of_a_frame(rt: HostRuntime) -> Result<(), Memory> {
    let a = spot(0, 0);
    let b = spot(0, 8);
    let jobs = [
        job(Op::Input, 8, 0, a, [NONE, NONE, NONE]),
        constant(8, 78, b),
        job(Op::Lt, 8, 0, spot(1, 63), [a, b, NONE]),
    ];
    let (bank, _) = done(rt.alloc(), &jobs)?;
    assert!(rt; holds(bank.as_slice(), 0, 0, &[1, 0, 1, 1, 0, 0, 1, 0]));
    assert!(rt; holds(bank.as_slice(), 0, 8, &[0, 1, 1, 1, 0, 0, 1, 0, 0]));
    assert!(rt; holds(bank.as_slice(), 1, 0, &[0; 63]));
    assert!(rt; holds(bank.as_slice(), 1, 63, &[1]));
    Ok(())
}

#[test]
fn chooses(rt: HostRuntime) -> Result<(), Memory> {
    let condition = spot(1, 0);
    let b = spot(0, 8);
    let c = spot(0, 16);
    let out = spot(1, 1);
    for (bit, wanted) in [(0, 6), (1, 5)] {
        let jobs = [
            constant(1, bit, condition),
            constant(4, 5, b),
            constant(4, 6, c),
            job(Op::Mux, 4, 0, out, [condition, b, c]),
            output(4, out),
        ];
        let (_, driver) = done(rt.alloc(), &jobs)?;
        assert_eq!(rt; driver.outputs(), [wanted].as_slice());
    }
    Ok(())
}

#[test]
fn puts_out_and_writes_nothing(rt: HostRuntime) -> Result<(), Memory> {
    let a = spot(1, 7);
    let jobs = [constant(3, 5, a), output(3, a), output(2, a)];
    let (bank, driver) = done(rt.alloc(), &jobs)?;
    assert_eq!(rt; driver.outputs(), [5, 1].as_slice());
    assert!(rt; holds(bank.as_slice(), 0, 0, &[0; 64]));
    assert!(rt; holds(bank.as_slice(), 1, 0, &[0, 0, 0, 0, 0, 0, 0, 1, 0, 1]));
    assert!(rt; holds(bank.as_slice(), 1, 10, &[0; 54]));
    Ok(())
}
