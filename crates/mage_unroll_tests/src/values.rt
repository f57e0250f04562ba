// What sources mean on inputs.
use crate::texts::read;
use mage_base::Memory;
use mage_lex::LangFault;
use mage_meaning::{Inputs, oracle, unrolled_means_the_same};
use std::alloc::Global;

// A source, the input values of both parties, and the outputs that are wanted: a list for each
// worker.
#[derive(Clone, Copy)]
struct Case {
    text: &'static str,
    garbler: &'static [&'static [u128]],
    evaluator: &'static [&'static [u128]],
    wanted: &'static [&'static [u128]],
}

fn lists(alloc: Global, values: &[&[u128]]) -> Result<Vec<Vec<u128>>, Memory> {
    let mut lists = Vec::new(alloc);
    for own in values {
        lists.push(Vec::from_slice(alloc, own)?)?;
    }
    Ok(lists)
}

fn outputs(alloc: Global, case: &Case) -> Result<Vec<Vec<u128>>, LangFault> {
    let source = read(alloc, case.text)?;
    let inputs = Inputs {
        garbler: lists(alloc, case.garbler)?,
        evaluator: lists(alloc, case.evaluator)?,
    };
    Ok(oracle(alloc, &source, &inputs)?)
}

fn are_wanted(outputs: &[Vec<u128>], wanted: &[&[u128]]) -> bool {
    if outputs.len() != wanted.len() {
        return false;
    }
    for (own, other) in outputs.iter().zip(wanted) {
        if own.as_slice() != *other {
            return false;
        }
    }
    true
}

// Whether the source of the case says what is wanted.
fn holds(alloc: Global, case: &Case) -> bool {
    match outputs(alloc, case) {
        Ok(outputs) => are_wanted(outputs.as_slice(), case.wanted),
        Err(_) => false,
    }
}

#[test]
fn works_out_operators(rt: HostRuntime) {
    let five = "input garbler a: u8; input garbler b: u8; \
        output a / b; output a % b; output min(a, b); output max(a, b); output count(a);";
    let wide =
        "input garbler a: u128; input garbler b: u128; output a * b; output a < b; output a + b; \
        output b - a; output !b; output a << 127; output a >> 127; output a << 128; output a / b; output count(a);";
    let cases = [
        Case {
            text: "input garbler a: u4; input evaluator b: u4; output a + b; output a - b; output b - a; \
                output a * b; output a & b; output a ^ b; output a | b; output !a; output a == b; output b < a; \
                output a << 1 >> 2; output resize u2 (a); output mux(a < b, a, b);",
            garbler: &[&[12]],
            evaluator: &[&[10]],
            wanted: &[&[6, 2, 14, 8, 8, 6, 14, 3, 0, 1, 2, 0, 10]],
        },
        Case {
            text: five,
            garbler: &[&[200, 7]],
            evaluator: &[],
            wanted: &[&[28, 4, 7, 200, 3]],
        },
        Case {
            text: five,
            garbler: &[&[200, 0]],
            evaluator: &[],
            wanted: &[&[255, 200, 0, 200, 3]],
        },
        Case {
            text: wide,
            garbler: &[&[340282366920938463463374607431768211455, 2]],
            evaluator: &[],
            wanted: &[&[
                340282366920938463463374607431768211454,
                0,
                1,
                3,
                340282366920938463463374607431768211453,
                170141183460469231731687303715884105728,
                1,
                0,
                170141183460469231731687303715884105727,
                128,
            ]],
        },
    ];
    for case in cases {
        assert!(rt; holds(rt.alloc(), &case), "at {:?}", case.text);
    }
}

// Loops, branches, arrays, and constants, of which `/` and `%` round toward zero; -2^127 % -1 is 0.
#[test]
fn follows_statements(rt: HostRuntime) {
    let cases = [
        Case {
            text: "const low = -170141183460469231731687303715884105727 - 1; output lit u8 (low % -1); \
                for i in -1..3 { if i == 1 { output lit u8 (7); } else { if i < 0 { } else { output lit u8 (i); } } }",
            garbler: &[],
            evaluator: &[],
            wanted: &[&[0, 0, 7, 2]],
        },
        Case {
            text: "input evaluator xs: u8[3]; let s = lit u8 (0); for i in 0..3 { s = s + xs[i]; } output s; \
                xs[1] = s; output xs[1]; output xs[2]; output lit u65 (18446744073709551615);",
            garbler: &[],
            evaluator: &[&[200, 50, 10]],
            wanted: &[&[4, 4, 10, 18446744073709551615]],
        },
    ];
    for case in cases {
        assert!(rt; holds(rt.alloc(), &case), "at {:?}", case.text);
    }
}

// Each worker has inputs and outputs of its own, and gets what is moved to it.
#[test]
fn follows_workers(rt: HostRuntime) {
    let cases = [
        Case {
            text: "workers 2;\ninput garbler x: u8;\non 1 { input garbler y: u8; }\nmove z = y;\noutput x + z;\n",
            garbler: &[&[5], &[7]],
            evaluator: &[],
            wanted: &[&[12], &[]],
        },
        Case {
            text: "workers 2; input garbler a: u64[3]; on 1 { input garbler b: u64[3]; } for i in 0..3 { \
                on 1 { move p = a[i]; output p + b[i]; } move q = b[i]; output q + a[i]; }",
            garbler: &[&[0, 1, 2], &[1000, 1001, 1002]],
            evaluator: &[],
            wanted: &[&[1000, 1002, 1004], &[1000, 1002, 1004]],
        },
    ];
    for case in cases {
        assert!(rt; holds(rt.alloc(), &case), "at {:?}", case.text);
    }
}

// An input that isn't given, and each thing that a source with a fault lacks; an input that is too
// wide stays so.
#[test]
fn goes_on_with_0(rt: HostRuntime) {
    let case = Case {
        text: "input garbler a: u4; input garbler b: u8; output a; output b; output y; \
            array v: u8[2] = lit u8 (5); output v[2]; output v; output lit u8 (5 + 1 / 0);",
        garbler: &[&[300]],
        evaluator: &[],
        wanted: &[&[300, 0, 0, 0, 0, 0]],
    };
    assert!(rt; holds(rt.alloc(), &case));
    unrolled_means_the_same();
}
