// Places and traces of small programs, by hand from the rule of placement.
use super::*;
use crate::page_tight;
use mage_instr::{Op, Tight};
use std::test::Fail;

macro_rules! instr {
    ($op:ident $width:literal $first:literal $second:literal) => {
        Instr { op: Op::$op, width: $width, args: [$first, $second, 0], imm: 0 }
    };
}

macro_rules! at {
    ($page:literal $offset:literal) => {
        Place { page: $page, offset: $offset }
    };
}

macro_rules! pages {
    ($first:literal) => {
        Step { pages: [$first, 0, 0, 0], count: 1 }
    };
    ($first:literal $second:literal) => {
        Step { pages: [$first, $second, 0, 0], count: 2 }
    };
}

// `c = a + a; d = b ^ b; output c; output d;` with an input of 8 bits and one of 64: both operands are one value.
#[test]
fn a_page_for_each_class(rt: HostRuntime) -> Result<(), Fail> {
    let instrs = [
        instr!(Input 8 0 0),
        instr!(Input 64 0 0),
        instr!(Add 8 0 0),
        instr!(Xor 64 1 1),
        instr!(Output 8 2 0),
        instr!(Output 64 3 0),
    ];
    let (places, trace) = place(rt.alloc(), &instrs, 64).ok().ok_or("no memory")?;
    let expected = [at!(0 0), at!(1 0), at!(0 8), at!(2 0), at!(0 0), at!(0 0)];
    assert_eq!(rt; places.as_slice(), expected.as_slice());
    let needed = [
        pages!(0),
        pages!(1),
        pages!(0),
        pages!(1 2),
        pages!(0),
        pages!(2),
    ];
    assert_eq!(rt; trace.as_slice(), needed.as_slice());
    Ok(())
}

// A value that is never used leaves its place at once; its page is then retired, and not taken again.
#[test]
fn a_value_never_used(rt: HostRuntime) -> Result<(), Fail> {
    let instrs = [
        instr!(Input 8 0 0),
        instr!(Input 8 0 0),
        instr!(Input 8 0 0),
        instr!(Output 8 1 0),
    ];
    let (places, trace) = place(rt.alloc(), &instrs, 64).ok().ok_or("no memory")?;
    let expected = [at!(0 0), at!(1 0), at!(1 8), at!(0 0)];
    assert_eq!(rt; places.as_slice(), expected.as_slice());
    let needed = [pages!(0), pages!(1), pages!(1), pages!(1)];
    assert_eq!(rt; trace.as_slice(), needed.as_slice());
    Ok(())
}

// A page whose one live value is taken for the last time is retired, and the next value of its class gets a new page.
#[test]
fn a_retired_page(rt: HostRuntime) -> Result<(), Fail> {
    let instrs = [
        instr!(Input 8 0 0),
        instr!(Output 8 0 0),
        instr!(Input 8 0 0),
        instr!(Output 8 2 0),
    ];
    let (places, trace) = place(rt.alloc(), &instrs, 64).ok().ok_or("no memory")?;
    let expected = [at!(0 0), at!(0 0), at!(1 0), at!(0 0)];
    assert_eq!(rt; places.as_slice(), expected.as_slice());
    let needed = [pages!(0), pages!(0), pages!(1), pages!(1)];
    assert_eq!(rt; trace.as_slice(), needed.as_slice());
    Ok(())
}

// Two pages are open: the one with the higher number is filled first, and then the free place of the other.
#[test]
fn the_highest_open_page(rt: HostRuntime) -> Result<(), Fail> {
    let instrs = [
        instr!(Input 32 0 0),
        instr!(Input 32 0 0),
        instr!(Input 32 0 0),
        instr!(Output 32 0 0),
        instr!(Input 32 0 0),
        instr!(Input 32 0 0),
        instr!(And 32 1 2),
        instr!(Or 32 4 5),
    ];
    let (places, trace) = place(rt.alloc(), &instrs, 64).ok().ok_or("no memory")?;
    let expected = [
        at!(0 0),
        at!(0 32),
        at!(1 0),
        at!(0 0),
        at!(1 32),
        at!(0 0),
        at!(2 0),
        at!(1 0),
    ];
    assert_eq!(rt; places.as_slice(), expected.as_slice());
    let needed = [
        pages!(0),
        pages!(0),
        pages!(1),
        pages!(0),
        pages!(1),
        pages!(0),
        Step {
            pages: [0, 1, 2, 0],
            count: 3,
        },
        pages!(0 1),
    ];
    assert_eq!(rt; trace.as_slice(), needed.as_slice());
    Ok(())
}

// A value of each class, then one of the least and one of the greatest.
#[test]
fn each_class_in_the_longest_pages(rt: HostRuntime) -> Result<(), Fail> {
    let instrs = [
        instr!(Input 1 0 0),
        instr!(Input 2 0 0),
        instr!(Input 3 0 0),
        instr!(Input 5 0 0),
        instr!(Input 9 0 0),
        instr!(Input 17 0 0),
        instr!(Input 33 0 0),
        instr!(Input 1 0 0),
        instr!(Input 64 0 0),
        instr!(Output 1 0 0),
        instr!(Output 2 1 0),
        instr!(Output 3 2 0),
        instr!(Output 5 3 0),
        instr!(Output 9 4 0),
        instr!(Output 17 5 0),
        instr!(Output 33 6 0),
        instr!(Output 1 7 0),
        instr!(Output 64 8 0),
    ];
    let (places, trace) = place(rt.alloc(), &instrs, 65536).ok().ok_or("no memory")?;
    let expected = [
        at!(0 0),
        at!(1 0),
        at!(2 0),
        at!(3 0),
        at!(4 0),
        at!(5 0),
        at!(6 0),
        at!(0 1),
        at!(6 64),
        at!(0 0),
        at!(0 0),
        at!(0 0),
        at!(0 0),
        at!(0 0),
        at!(0 0),
        at!(0 0),
        at!(0 0),
        at!(0 0),
    ];
    assert_eq!(rt; places.as_slice(), expected.as_slice());
    let needed = [
        pages!(0),
        pages!(1),
        pages!(2),
        pages!(3),
        pages!(4),
        pages!(5),
        pages!(6),
        pages!(0),
        pages!(6),
        pages!(0),
        pages!(1),
        pages!(2),
        pages!(3),
        pages!(4),
        pages!(5),
        pages!(6),
        pages!(0),
        pages!(6),
    ];
    assert_eq!(rt; trace.as_slice(), needed.as_slice());
    Ok(())
}

#[test]
fn the_least_power_of_two(rt: HostRuntime) {
    assert_eq!(rt; class_of(1), 1);
    assert_eq!(rt; class_of(2), 2);
    assert_eq!(rt; class_of(3), 4);
    assert_eq!(rt; class_of(5), 8);
    assert_eq!(rt; class_of(8), 8);
    assert_eq!(rt; class_of(9), 16);
    assert_eq!(rt; class_of(17), 32);
    assert_eq!(rt; class_of(32), 32);
    assert_eq!(rt; class_of(33), 64);
    assert_eq!(rt; class_of(64), 64);
}

// A value of 128 bits needs a page of 128 wires.
#[test]
fn a_value_wider_than_a_page(rt: HostRuntime) {
    let instrs = [instr!(Input 8 0 0), instr!(Input 65 0 0)];
    let wide = Some(Tight::Page {
        instr: 1,
        class: 128,
    });
    assert_eq!(rt; page_tight(&instrs, 64), wide);
    assert_eq!(rt; page_tight(&instrs, 128), None);
}
