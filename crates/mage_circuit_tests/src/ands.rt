// How many ANDs instructions have, and where they stop.
use mage_base::Memory;
use mage_circuit::{Scratch, TallyDriver, exec, is_made};
use mage_instr::{DriverFault, Op, and_count, width_ok};
use std::alloc::Global;

// How many ANDs an instruction made over a driver that answers Ok to so many calls, and its fault, if any.
fn made(alloc: Global, op: Op, width: u8, last: u64) -> Result<(u64, Option<DriverFault>), Memory> {
    let mut driver = TallyDriver::make(last);
    let mut scratch = Scratch::make(alloc, &driver)?;
    if !is_made(op) || !width_ok(op, width, 0) {
        return Ok((0, None));
    }
    let fault = exec(&mut driver, op, width, 0, &mut scratch).err();
    Ok((driver.ands(), fault))
}

// How many ANDs the table says.
fn ands_of(op: Op, width: u8) -> u64 {
    if 1 <= width { and_count(op, width) } else { 0 }
}

#[test]
fn makes_as_many_as_worked_out(rt: HostRuntime) -> Result<(), Memory> {
    let table: [(Op, u8, u64); 16] = [
        (Op::Mul, 8, 57),
        (Op::Mul, 32, 993),
        (Op::Mul, 64, 4_033),
        (Op::Mul, 128, 16_257),
        (Op::Eq, 1, 0),
        (Op::Lt, 64, 64),
        (Op::Lt, 128, 128),
        (Op::Add, 1, 0),
        (Op::Add, 64, 63),
        (Op::Div, 8, 136),
        (Op::Rem, 8, 136),
        (Op::Div, 128, 32_896),
        (Op::Count, 8, 13),
        (Op::Count, 64, 264),
        (Op::Min, 8, 16),
        (Op::Max, 8, 16),
    ];
    for (op, width, ands) in table {
        assert_eq!(rt; ands_of(op, width), ands, "{op:?} u{width}");
        assert_eq!(rt;
            made(rt.alloc(), op, width, u64::MAX)?,
            (ands, None),
            "{op:?} u{width}"
        );
    }
    Ok(())
}

#[test]
fn makes_as_many_as_the_table_says(rt: HostRuntime) -> Result<(), Memory> {
    for op in [
        Op::Add,
        Op::Sub,
        Op::Mul,
        Op::And,
        Op::Or,
        Op::Xor,
        Op::Not,
        Op::Eq,
        Op::Lt,
        Op::Mux,
        Op::Div,
        Op::Rem,
        Op::Count,
        Op::Min,
        Op::Max,
    ] {
        for width in 1..129 {
            assert_eq!(rt;
                made(rt.alloc(), op, width, u64::MAX)?,
                (ands_of(op, width), None),
                "{op:?} u{width}"
            );
        }
    }
    Ok(())
}

#[test]
fn stops_where_the_driver_stops(rt: HostRuntime) -> Result<(), Memory> {
    for op in [
        Op::Add,
        Op::Sub,
        Op::Mul,
        Op::And,
        Op::Or,
        Op::Eq,
        Op::Lt,
        Op::Mux,
        Op::Div,
        Op::Rem,
        Op::Count,
        Op::Min,
        Op::Max,
    ] {
        for last in 0..ands_of(op, 5) {
            assert_eq!(rt;
                made(rt.alloc(), op, 5, last)?,
                (last, Some(DriverFault::Short { at: last })),
                "{op:?} {last}"
            );
        }
    }
    Ok(())
}
