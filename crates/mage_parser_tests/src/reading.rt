// Sources that are read, and what is refused, by hand.
use crate::texts::{is_deepest, is_read, is_refused, is_wrong_at, nested};
use mage_lex::{LangFault, LangKind};

#[test]
fn reads_each_form(rt: HostRuntime) {
    let texts = [
        "",
        "// nothing\n",
        "workers 2;",
        "const N = 1 + 2 * -3 / (4 - n) % 5;",
        "input garbler a: u8; input evaluator b: u8[N + 1];",
        "array d: u32[3] = lit u32 (7); a = b; a[i + 1] = b[0]; move p = a[2];",
        "on 0 { } on w { a = b; on 1 { } }",
        "for i in 0..n + 1 { output x[i]; }",
        "if a + 1 == b { } else { x = y; } if a < 2 { if b == 1 { } } x = y;",
        "output mux(c, a, resize u8 (b)) + !!a[1];",
        "output a == b | c ^ d & e << 1 >> n << (2 + 3);",
        "output a / b % c * d;",
        "output min(a, max(b, c + d)) / count(e); output !count(a[1]) == min;",
        "let min = count + max[0]; count[1] = min; output min << count;",
        "let u = u8x; let _ = Letter; a = b; //",
        "const a = 170141183460469231731687303715884105727;",
    ];
    for text in texts {
        assert!(rt; is_read(rt.alloc(), text), "{text}");
    }
}

#[test]
fn refuses_at_the_first_wrong_token(rt: HostRuntime) -> Result<(), LangFault> {
    let texts = [
        "let x = @1;",
        "output a << 1 @+ b;",
        "output a | b << (2 + 3) @+ c;",
        "output @-a;",
        "output a == b @== c;",
        "output a << @-1;",
        "a = b; @workers 2;",
        "if a == 1 { } else { } @else { }",
        "if a + 1 @{ }",
        "for @let in 0..1 { }",
        "output mux(a, b@);",
        "output a - @-b;",
        "output lit u8 @1;",
        "input garbler u: @u8x;",
        "array a: u8 @= b;",
        "a[1]@[2] = b;",
        "on 0 @a = b;",
        "output min(a@);",
        "output max(a, b@, c);",
        "output count(@);",
        "output a@(b);",
        "min@(a, b) = c;",
        "const a = count@(b);",
        "move a = max@(b, c);",
        "output min (a, b) @[0];",
        "workers@",
        "output (@",
        "if a == b { } else@",
    ];
    for text in texts {
        assert!(rt; is_wrong_at(rt.alloc(), text)?, "{text}");
    }
    assert!(rt;
        is_refused(rt.alloc(), "let x =\n\n", LangKind::Syntax, (3, 1)),
        "lines"
    );
    Ok(())
}

#[test]
fn refuses_what_is_too_deep(rt: HostRuntime) -> Result<(), LangFault> {
    let alloc = rt.alloc();
    let output = ("output ", ";");
    assert!(rt; is_deepest(alloc, output, ("(!", ")"), "a", 50, 108)?);
    assert!(rt; is_deepest(alloc, ("on 0 { const a = ", "; }"), ("-", ""), "1", 99, 117)?);
    assert!(rt; is_deepest(alloc, ("", ""), ("on 0 {", "}"), "output x[1];", 99, 609)?);
    assert!(rt; is_deepest(alloc, output, ("!", ""), "count(a)", 99, 113)?);
    assert!(rt; is_deepest(alloc, output, ("!min(a,", ")"), "b", 50, 358)?);
    Ok(())
}

#[test]
fn takes_the_earlier_fault(rt: HostRuntime) -> Result<(), LangFault> {
    let alloc = rt.alloc();
    let deep = nested(alloc, ("output ", ";"), ("(", ")"), ";", 101)?;
    assert!(rt; is_refused(alloc, deep.as_str(), LangKind::TooDeep, (1, 108)));
    let wrong = nested(alloc, ("output ", ""), ("(", ""), "{", 100)?;
    assert!(rt; is_refused(alloc, wrong.as_str(), LangKind::Syntax, (1, 108)));
    Ok(())
}
