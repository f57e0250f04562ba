// Each instruction on values at the edges of wide types.
ghost use Rattle.std.specs.Prelude.{◌≤◌};

use crate::computing::{all_ones, computed, wanted};
use mage_base::Memory;
use mage_instr::Op;
use std::process::Abort;

const WIDTHS: [u8; 5] = [63, 64, 65, 127, 128];

// The least values of a width, the greatest, those about half, and one with bits of all kinds.
fn values_of(width: u8) -> [u128; 8]
    requires some { 1 ≤ width }
    requires few { width ≤ 128 }
{
    let half: u128 = 1 << (width - 1);
    let most = all_ones(width);
    let mixed = 0x9e37_79b9_7f4a_7c15_f39c_c060_5ced_c835 & most;
    [
        0,
        1,
        3,
        half.saturating_sub(1),
        half,
        most.saturating_sub(1),
        most,
        mixed,
    ]
}

fn check<R: Abort + AllocGlobal>(
    rt: &R,
    op: Op,
    width: u8,
    imm: u64,
    args: [u128; 3],
) -> Result<(), Memory> {
    let found = computed(rt.alloc(), op, width, imm, args)?;
    let [a, b, _] = args;
    assert_eq!(rt;
        found,
        Some(wanted(op, width, imm, args)),
        "{op:?} u{width} {imm} {a} {b}"
    );
    Ok(())
}

#[test]
fn computes_at_edges(rt: HostRuntime) -> Result<(), Memory> {
    for width in WIDTHS {
        for a in values_of(width) {
            for b in values_of(width) {
                for op in [
                    Op::Add,
                    Op::Sub,
                    Op::Mul,
                    Op::And,
                    Op::Or,
                    Op::Xor,
                    Op::Not,
                    Op::Eq,
                    Op::Lt,
                    Op::Div,
                    Op::Rem,
                    Op::Count,
                    Op::Min,
                    Op::Max,
                ] {
                    check(&rt, op, width, 0, [a, b, 0])?;
                }
                check(&rt, Op::Mux, width, 0, [0, a, b])?;
                check(&rt, Op::Mux, width, 0, [1, a, b])?;
            }
        }
    }
    Ok(())
}

#[test]
fn moves_at_edges(rt: HostRuntime) -> Result<(), Memory> {
    for width in WIDTHS {
        for a in values_of(width) {
            for amount in [0, 1, 62, 63, 64, 65, 126, 127, 128] {
                check(&rt, Op::Shl, width, amount, [a, 0, 0])?;
                check(&rt, Op::Shr, width, amount, [a, 0, 0])?;
            }
            for to in [1, 63, 64, 65, 127, 128] {
                check(&rt, Op::Resize, to, u64::from(width), [a, 0, 0])?;
            }
        }
        check(&rt, Op::Const, width, 0x7fff_ffff_ffff_ffff, [0, 0, 0])?;
    }
    Ok(())
}

// Worked by hand: products, quotients and counts of known values.
#[test]
fn computes_known_values(rt: HostRuntime) -> Result<(), Memory> {
    let table: [(Op, u8, u128, u128, u128); 13] = [
        (Op::Mul, 8, 200, 100, 32),
        (
            Op::Mul,
            128,
            u128::MAX,
            2,
            340_282_366_920_938_463_463_374_607_431_768_211_454,
        ),
        (Op::Lt, 128, u128::MAX, 2, 0),
        (
            Op::Lt,
            64,
            18_446_744_073_709_551_615,
            18_446_744_073_709_551_615,
            0,
        ),
        (Op::Div, 8, 200, 7, 28),
        (Op::Rem, 8, 200, 7, 4),
        (Op::Min, 8, 200, 7, 7),
        (Op::Max, 8, 200, 7, 200),
        (Op::Count, 8, 200, 0, 3),
        (Op::Div, 8, 200, 0, 255),
        (Op::Rem, 8, 200, 0, 200),
        (Op::Min, 8, 200, 0, 0),
        (Op::Max, 8, 200, 0, 200),
    ];
    for (op, width, a, b, result) in table {
        assert_eq!(rt;
            computed(rt.alloc(), op, width, 0, [a, b, 0])?,
            Some(result),
            "{op:?} u{width} {a} {b}"
        );
    }
    Ok(())
}
