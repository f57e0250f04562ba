// The table of opcodes, row by row.
use super::*;
use std::test::Fail;

#[derive(Clone, Copy)]
struct Row {
    op: Op,
    arity: u8,
    // of an instruction of width 8: the width of its result, and its least and greatest immediate
    result: Option<u8>,
    least: u64,
    greatest: u64,
    // how many ANDs it has at widths 8 and 128
    ands: [u64; 2],
}

const fn opcode(
    op: Op,
    arity: u8,
    wide: Option<u8>,
    least: u64,
    greatest: u64,
    ands: [u64; 2],
) -> Row {
    Row {
        op,
        arity,
        result: wide,
        least,
        greatest,
        ands,
    }
}

#[test]
fn each_row_of_the_table(rt: HostRuntime) -> Result<(), Fail> {
    let rows = [
        opcode(Op::Input, 0, Some(8), 0, 1, [0, 0]),
        opcode(Op::Const, 0, Some(8), 0, 255, [0, 0]),
        opcode(Op::Output, 1, None, 0, 0, [0, 0]),
        opcode(Op::Add, 2, Some(8), 0, 0, [7, 127]),
        opcode(Op::Sub, 2, Some(8), 0, 0, [7, 127]),
        opcode(Op::Mul, 2, Some(8), 0, 0, [57, 16_257]),
        opcode(Op::And, 2, Some(8), 0, 0, [8, 128]),
        opcode(Op::Or, 2, Some(8), 0, 0, [8, 128]),
        opcode(Op::Xor, 2, Some(8), 0, 0, [0, 0]),
        opcode(Op::Not, 1, Some(8), 0, 0, [0, 0]),
        opcode(Op::Eq, 2, Some(1), 0, 0, [7, 127]),
        opcode(Op::Lt, 2, Some(1), 0, 0, [8, 128]),
        opcode(Op::Mux, 3, Some(8), 0, 0, [8, 128]),
        opcode(Op::Shl, 1, Some(8), 0, 128, [0, 0]),
        opcode(Op::Shr, 1, Some(8), 0, 128, [0, 0]),
        opcode(Op::Resize, 1, Some(8), 1, 128, [0, 0]),
        opcode(Op::Send, 1, None, 0, 15, [0, 0]),
        opcode(Op::Recv, 0, Some(8), 0, 15, [0, 0]),
        opcode(Op::Div, 2, Some(8), 0, 0, [136, 32_896]),
        opcode(Op::Rem, 2, Some(8), 0, 0, [136, 32_896]),
        opcode(Op::Count, 1, Some(8), 0, 0, [13, 649]),
        opcode(Op::Min, 2, Some(8), 0, 0, [16, 256]),
        opcode(Op::Max, 2, Some(8), 0, 0, [16, 256]),
    ];
    for row in &rows {
        assert_eq!(rt; arity(row.op), row.arity);
        assert_eq!(rt; result_width(row.op, 8), row.result);
        assert_eq!(rt; and_count(row.op, 8), row.ands[0]);
        assert_eq!(rt; and_count(row.op, 128), row.ands[1]);
        assert!(rt; width_ok(row.op, 8, row.least));
        assert!(rt; width_ok(row.op, 8, row.greatest));
        assert!(rt; !width_ok(row.op, 8, row.greatest.saturating_add(1)));
        assert!(rt; !width_ok(row.op, 0, row.least));
        assert!(rt; width_ok(row.op, 128, row.least));
        assert!(rt; !width_ok(row.op, 129, row.least));
    }
    Ok(())
}

#[test]
fn immediates_by_width(rt: HostRuntime) {
    assert!(rt; !width_ok(Op::Resize, 8, 0));
    assert!(rt; width_ok(Op::Const, 1, 1));
    assert!(rt; !width_ok(Op::Const, 1, 2));
    assert!(rt; width_ok(Op::Const, 64, u64::MAX));
    assert!(rt; !width_ok(Op::Const, 63, u64::MAX));
    assert!(rt; width_ok(Op::Const, 65, u64::MAX));
    assert!(rt; width_ok(Op::Const, 128, u64::MAX));
}

#[test]
fn opcodes_are_numbered_in_order(rt: HostRuntime) {
    assert_eq!(rt; Op::Input as u8, 0);
    assert_eq!(rt; Op::Mux as u8, 12);
    assert_eq!(rt; Op::Recv as u8, 17);
    assert_eq!(rt; Op::Max as u8, 22);
}

#[test]
fn ands_of_other_widths(rt: HostRuntime) {
    assert_eq!(rt; and_count(Op::Add, 1), 0);
    assert_eq!(rt; and_count(Op::Mul, 1), 1);
    assert_eq!(rt; and_count(Op::Mul, 32), 993);
    assert_eq!(rt; and_count(Op::Mul, 64), 4_033);
    assert_eq!(rt; and_count(Op::Count, 1), 0);
    assert_eq!(rt; and_count(Op::Count, 2), 1);
    assert_eq!(rt; and_count(Op::Count, 64), 264);
}
