// The steps and the instructions that a source may have.
use crate::texts::{count, is_refused};
use mage_lex::LangKind::{TooLong, UnknownName, WidthDiffers};

// The step of a statement comes before its other checks, and those of an array's items after its
// value.
#[test]
fn stops_at_step_16000001(rt: HostRuntime) {
    let alloc = rt.alloc();
    let longest = "@array a: u1[1267650600228229401496703205376] = lit u1 (0);";
    assert!(rt; count(alloc, "for i in 0..15999999 { }") == Some(0));
    assert!(rt; is_refused(alloc, TooLong, "@for i in 0..1000000000000000000 { }"));
    assert!(rt; is_refused(alloc, TooLong, "for i in 0..15999999 { } @y[1/0] = z;"));
    assert!(rt; count(alloc, "array a: u1[15999999] = lit u1 (0);") == Some(1));
    assert!(rt; is_refused(alloc, TooLong, longest));
    assert!(rt; is_refused(alloc, UnknownName, "array a: u1[16000000] = @y;"));
    assert!(rt;
        is_refused(
            alloc,
            TooLong,
            "for i in 0..15999990 { } @input garbler a: u1[9];"
        )
    );
}

// At the statement, whichever of its instructions it is; the widths of an instruction come before
// it, and a Send and a Recv are two instructions.
#[test]
fn stops_at_instruction_2000001(rt: HostRuntime) {
    let alloc = rt.alloc();
    let deep = "let x = lit u1 (0); for i in 0..1999998 { output x; } @output (x + x) + x;";
    let differs =
        "let x = lit u1 (0); let y = lit u2 (0); for i in 0..1999998 { output x; } output x @+ y;";
    let fits =
        "workers 2; let x = lit u1 (0); for i in 0..1999997 { output x; } on 1 { move y = x; }";
    let passes =
        "workers 2; let x = lit u1 (0); for i in 0..1999998 { output x; } on 1 { @move y = x; }";
    assert!(rt; is_refused(alloc, TooLong, "@input garbler a: u1[2000001];"));
    assert!(rt; is_refused(alloc, TooLong, deep));
    assert!(rt; is_refused(alloc, WidthDiffers, differs));
    assert!(rt; count(alloc, fits) == Some(2000000));
    assert!(rt; is_refused(alloc, TooLong, passes));
}
