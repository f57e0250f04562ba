// Each instruction on every pair of values of 1 to 4 bits.
use crate::computing::{computed, wanted};
use mage_base::Memory;
use mage_instr::Op;

const OPS: [Op; 14] = [
    Op::Add,
    Op::Sub,
    Op::Mul,
    Op::And,
    Op::Or,
    Op::Xor,
    Op::Not,
    Op::Eq,
    Op::Lt,
    Op::Div,
    Op::Rem,
    Op::Count,
    Op::Min,
    Op::Max,
];

#[test]
fn computes_each_pair(rt: HostRuntime) -> Result<(), Memory> {
    for op in OPS {
        for width in 1..5 {
            for a in 0..1 << width {
                for b in 0..1 << width {
                    let args = [a, b, 0];
                    assert_eq!(rt;
                        computed(rt.alloc(), op, width, 0, args)?,
                        Some(wanted(op, width, 0, args)),
                        "{op:?} u{width} {a} {b}"
                    );
                }
            }
        }
    }
    Ok(())
}

#[test]
fn chooses(rt: HostRuntime) -> Result<(), Memory> {
    for width in 1..5 {
        for a in 0..1 << width {
            for b in 0..1 << width {
                assert_eq!(rt;
                    computed(rt.alloc(), Op::Mux, width, 0, [1, a, b])?,
                    Some(a),
                    "u{width} {a} {b}"
                );
                assert_eq!(rt;
                    computed(rt.alloc(), Op::Mux, width, 0, [0, a, b])?,
                    Some(b),
                    "u{width} {a} {b}"
                );
            }
        }
    }
    Ok(())
}

#[test]
fn moves(rt: HostRuntime) -> Result<(), Memory> {
    for op in [Op::Shl, Op::Shr, Op::Resize, Op::Const] {
        for width in 1..5 {
            for imm in 1..5 {
                let bits: u8 = if op == Op::Resize { imm } else { width };
                for a in 0..1_u64 << bits {
                    let value = if op == Op::Const { a } else { u64::from(imm) };
                    let args = [u128::from(a), 0, 0];
                    assert_eq!(rt;
                        computed(rt.alloc(), op, width, value, args)?,
                        Some(wanted(op, width, value, args)),
                        "{op:?} u{width} {value} {a}"
                    );
                }
            }
        }
    }
    Ok(())
}
