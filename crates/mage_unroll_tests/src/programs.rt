// The programs of instructions that sources unroll to.
use crate::texts::unrolled;
use mage_instr::{Instr, Op, Program};
use std::alloc::Global;

fn instr(op: Op, width: u8, args: [u32; 3], imm: u64) -> Instr {
    Instr {
        op,
        width,
        args,
        imm,
    }
}

fn constant(width: u8, imm: u64) -> Instr {
    instr(Op::Const, width, [0, 0, 0], imm)
}

fn output(width: u8, index: u32) -> Instr {
    instr(Op::Output, width, [index, 0, 0], 0)
}

// Whether the program has one worker, with these instructions.
fn has(program: &Program, wanted: &[Instr]) -> bool {
    match program.workers.as_slice() {
        [own] => own.as_slice() == wanted && program.order.len() == wanted.len(),
        _ => false,
    }
}

fn is_unrolled(alloc: Global, text: &str, wanted: &[Instr]) -> bool {
    match unrolled(alloc, text) {
        Ok(program) => has(&program, wanted),
        Err(_) => false,
    }
}

// Whether the program has two workers, with these instructions, emitted in this order.
fn has_two(program: &Program, first: &[Instr], second: &[Instr], order: &[u8]) -> bool {
    match program.workers.as_slice() {
        [a, b] => {
            a.as_slice() == first && b.as_slice() == second && program.order.as_slice() == order
        }
        _ => false,
    }
}

#[test]
fn emits_each_operator(rt: HostRuntime) {
    let text =
        "input garbler a: u8; input evaluator b: u8; output a - b; output a & b | a ^ b; output !a; \
        output mux(a == b, a, b); output (a << 0) + (b >> 128); output a * b / a % b; \
        output min(a, b) < max(b, a); output resize u128 (count(a)); output lit u128 (18446744073709551615);";
    let wanted = [
        instr(Op::Input, 8, [0, 0, 0], 0),
        instr(Op::Input, 8, [0, 0, 0], 1),
        instr(Op::Sub, 8, [0, 1, 0], 0),
        output(8, 2),
        instr(Op::And, 8, [0, 1, 0], 0),
        instr(Op::Xor, 8, [0, 1, 0], 0),
        instr(Op::Or, 8, [4, 5, 0], 0),
        output(8, 6),
        instr(Op::Not, 8, [0, 0, 0], 0),
        output(8, 8),
        instr(Op::Eq, 8, [0, 1, 0], 0),
        instr(Op::Mux, 8, [10, 0, 1], 0),
        output(8, 11),
        instr(Op::Shl, 8, [0, 0, 0], 0),
        instr(Op::Shr, 8, [1, 0, 0], 128),
        instr(Op::Add, 8, [13, 14, 0], 0),
        output(8, 15),
        instr(Op::Mul, 8, [0, 1, 0], 0),
        instr(Op::Div, 8, [17, 0, 0], 0),
        instr(Op::Rem, 8, [18, 1, 0], 0),
        output(8, 19),
        instr(Op::Min, 8, [0, 1, 0], 0),
        instr(Op::Max, 8, [1, 0, 0], 0),
        instr(Op::Lt, 8, [21, 22, 0], 0),
        output(1, 23),
        instr(Op::Count, 8, [0, 0, 0], 0),
        instr(Op::Resize, 128, [25, 0, 0], 8),
        output(128, 26),
        constant(128, 18446744073709551615),
        output(128, 28),
    ];
    assert!(rt; is_unrolled(rt.alloc(), text, &wanted));
}

// An item is bound anew and the others stay; a branch that isn't taken may have any fault; a name
// of a scope that was left is free again; `/` and `%` of constants round toward zero.
#[test]
fn follows_scopes_places_and_constants(rt: HostRuntime) {
    let text = "array v: u4[3] = lit u4 (7 / -2 + 4); const k = 1; if 1 < 0 { output y; } \
        for i in 0..2 { let t = v[k]; v[k] = t + v[0]; } output v[0]; output v[1]; \
        on 0 { let t = lit u4 (-7 % 4 + 4); } move w = v[1]; output w; output t;";
    let wanted = [
        constant(4, 1),
        instr(Op::Add, 4, [0, 0, 0], 0),
        instr(Op::Add, 4, [1, 0, 0], 0),
        output(4, 0),
        output(4, 2),
        constant(4, 1),
        output(4, 2),
        output(4, 5),
    ];
    assert!(rt; is_unrolled(rt.alloc(), text, &wanted));
}

// A move within a worker emits nothing; one from another emits a Send there and then a Recv. An
// `on` block ends with the worker before it.
#[test]
fn sends_what_is_moved(rt: HostRuntime) {
    let text = "workers 2; input garbler a: u8; move b = a; \
        on 1 { let c = lit u8 (7); on 0 { output b; } move d = b; output c + d; } output b;";
    let first = [
        instr(Op::Input, 8, [0, 0, 0], 0),
        output(8, 0),
        instr(Op::Send, 8, [0, 0, 0], 1),
        output(8, 0),
    ];
    let second = [
        constant(8, 7),
        instr(Op::Recv, 8, [0, 0, 0], 0),
        instr(Op::Add, 8, [0, 1, 0], 0),
        output(8, 2),
    ];
    let is_there = match unrolled(rt.alloc(), text) {
        Ok(program) => has_two(&program, &first, &second, &[0, 1, 0, 0, 1, 1, 1, 0]),
        Err(_) => false,
    };
    assert!(rt; is_there);
}
