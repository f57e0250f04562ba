// The first fault of a source, of each kind, with its place.
use crate::texts::{first_other, unrolled};
use mage_lex::{LangFault, LangKind};

// Names that stand for nothing of the kind that is wanted, and names that are taken.
#[test]
fn refuses_names(rt: HostRuntime) {
    let unknown = [
        "output @y;",
        "@y[0] = lit u1 (0);",
        "move x = @y;",
        "const c = 1 + (@d);",
        "output lit u8 (1) << @k;",
        "input garbler a: u8[@n];",
        "if 1 < 0 { } else { output @y; }",
        "let count = lit u8 (3); output count(@y);",
        "const c = 1; output @c;",
        "array v: u8[2] = lit u8 (0); move w = @v;",
        "let s = lit u8 (0); const c = @s;",
        "for i in 0..2 { let t = lit u1 (0); } output @t;",
        "let x = @x;",
        "output @v[1/0];",
        "output lit u8 (0) + lit u4 (@k);",
        "output max(lit u8 (0), @y);",
    ];
    let other = first_other(rt.alloc(), LangKind::UnknownName, &unknown);
    assert!(rt; other.is_none(), "{:?}", other);
    let taken = [
        "let x = lit u1 (0); let @x = lit u1 (1);",
        "const x = 1; input evaluator @x: u0[2];",
        "const x = 1; array @x: u8[1] = y;",
        "array v: u8[2] = lit u8 (0); move @v = v[0];",
        "const i = 1; for @i in 0..0 { }",
        "for i in 0..1 { const @i = 1; }",
        "on 0 { const t = 1; } const @t = 2;",
    ];
    let other = first_other(rt.alloc(), LangKind::Duplicate, &taken);
    assert!(rt; other.is_none(), "{:?}", other);
}

// Constants, literals, amounts and lengths out of their range.
#[test]
fn refuses_constants(rt: HostRuntime) {
    let texts = [
        "const high = 170141183460469231731687303715884105727; const c = high @+ 1;",
        "const low = -170141183460469231731687303715884105727 - 1; const c = low @/ -1;",
        "const low = -170141183460469231731687303715884105727 - 1; const c = -(@-low);",
        "const c = 4 / 2 @/ (1 - 1) + y;",
        "array v: u8[2] = lit u8 (0); v[1 @/ 0] = y;",
        "on 1 @/ 0 { }",
        "if 0 < 1 @% 0 { }",
        "output @lit u8 (256);",
        "output @lit u1 (-1);",
        "output @lit u64 (18446744073709551616);",
        "output @lit u128 (18446744073709551616);",
        "output lit u8 (1) @<< 129;",
        "output lit u8 (1) @>> (0 - 1);",
        "output lit u8 (1) << 128 @>> (-1) << 129;",
        "array a: u8@[-1] = y;",
        "input garbler a: u8@[0 - 1];",
    ];
    let other = first_other(rt.alloc(), LangKind::ConstFault, &texts);
    assert!(rt; other.is_none(), "{:?}", other);
}

// Types that aren't one of `u1` to `u128`, and widths that have to be the same.
#[test]
fn refuses_widths(rt: HostRuntime) {
    let types = [
        "input garbler a: @u129;",
        "input garbler a: @u0;",
        "input evaluator a: @u1128[1/0];",
        "array a: @u01[1] = y;",
        "output lit @u08 (1/0);",
        "output resize @u0128 (y);",
    ];
    let other = first_other(rt.alloc(), LangKind::BadWidth, &types);
    assert!(rt; other.is_none(), "{:?}", other);
    let widths = [
        "output lit u8 (0) @/ lit u4 (0);",
        "output lit u8 (0) @% lit u4 (0);",
        "output lit u8 (0) @< lit u4 (0);",
        "output lit u8 (0) + lit u8 (0) @+ lit u4 (0) + y;",
        "output (lit u8 (0) << 1) @+ lit u4 (0);",
        "output @mux(lit u2 (0), lit u8 (0), lit u8 (0));",
        "output @min(lit u8 (0), lit u4 (0));",
        "output lit u8 (0) + @max(lit u128 (0), lit u64 (0));",
        "output count(lit u8 (0)) @+ lit u4 (0);",
        "array a: u8[0] @= lit u4 (0);",
        "array v: u8[2] = lit u8 (0); v[0] @= lit u4 (0);",
    ];
    let other = first_other(rt.alloc(), LangKind::WidthDiffers, &widths);
    assert!(rt; other.is_none(), "{:?}", other);
}

// Indices, and workers.
#[test]
fn refuses_places_and_workers(rt: HostRuntime) {
    let indices = [
        "array v: u8[2] = lit u8 (0); output @v[2];",
        "array v: u8[2] = lit u8 (0); @v[-1] = y;",
        "array v: u8[2] = lit u8 (0); for i in 0..3 { output @v[i]; }",
        "workers 2; array v: u8[2] = lit u8 (0); on 1 { move w = @v[2]; }",
        "workers 2; array v: u8[2] = lit u8 (0); on 1 { output @v[2]; }",
    ];
    let other = first_other(rt.alloc(), LangKind::IndexOut, &indices);
    assert!(rt; other.is_none(), "{:?}", other);
    let places = [
        "workers 2; input garbler a: u8; on 1 { output lit u4 (0) + @a; }",
        "workers 2; input garbler a: u8; on 1 { @a = y; }",
        "workers 2; array v: u8[2] = lit u8 (0); on 1 { output @v[1]; }",
        "workers 2; on 1 { on 0 { let a = lit u8 (0); } output @a; }",
        "workers 2; let a = lit u8 (0); on 1 { move b = a; } output @b;",
    ];
    let other = first_other(rt.alloc(), LangKind::WorkerDiffers, &places);
    assert!(rt; other.is_none(), "{:?}", other);
    let workers = [
        "workers @0;",
        "workers @17;",
        "workers @257; output y;",
        "on @1 { }",
        "workers 2; on @-1 { }",
        "workers 3; on @3 - 0 { output y; }",
        "workers 16; on @(16) { }",
    ];
    let other = first_other(rt.alloc(), LangKind::BadWorker, &workers);
    assert!(rt; other.is_none(), "{:?}", other);
}

#[test]
fn counts_lines_and_columns(rt: HostRuntime) {
    let text = "workers 2;\ninput garbler x: u8;\non 1 { input garbler y: u8; }\noutput x + y;\n";
    let is_there = matches!(
        unrolled(rt.alloc(), text),
        Err(LangFault::At {
            kind: LangKind::WorkerDiffers,
            line: 4,
            column: 12,
        })
    );
    assert!(rt; is_there);
}
