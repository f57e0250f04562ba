// Next uses of a trace that was worked out by hand.
use super::*;
use std::test::Fail;

// The trace of `c = a + a; d = b ^ b; output c; output d;` with the inputs a and b on a page each.
#[test]
fn a_page_for_each_width(rt: HostRuntime) -> Result<(), Fail> {
    let trace = [
        Step {
            pages: [0, 0, 0, 0],
            count: 1,
        },
        Step {
            pages: [1, 0, 0, 0],
            count: 1,
        },
        Step {
            pages: [0, 0, 0, 0],
            count: 1,
        },
        Step {
            pages: [1, 2, 0, 0],
            count: 2,
        },
        Step {
            pages: [0, 0, 0, 0],
            count: 1,
        },
        Step {
            pages: [2, 0, 0, 0],
            count: 1,
        },
    ];
    let expected = [
        [2, NEVER, NEVER, NEVER],
        [3, NEVER, NEVER, NEVER],
        [4, NEVER, NEVER, NEVER],
        [NEVER, 5, NEVER, NEVER],
        [NEVER, NEVER, NEVER, NEVER],
        [NEVER, NEVER, NEVER, NEVER],
    ];
    let uses = next_uses(rt.alloc(), &trace).ok().ok_or("no memory")?;
    assert_eq!(rt; uses.as_slice(), expected.as_slice());
    Ok(())
}

// Page 0 in each step, four pages in one step, a step without pages, and page numbers at both ends.
#[test]
fn the_least_later_step(rt: HostRuntime) -> Result<(), Fail> {
    let trace = [
        Step {
            pages: [0, 3, 7, u32::MAX],
            count: 4,
        },
        Step {
            pages: [0, 0, 0, 0],
            count: 0,
        },
        Step {
            pages: [0, 7, 0, 0],
            count: 2,
        },
        Step {
            pages: [0, 7, u32::MAX, 0],
            count: 3,
        },
    ];
    let expected = [
        [2, NEVER, 2, 3],
        [NEVER, NEVER, NEVER, NEVER],
        [3, 3, NEVER, NEVER],
        [NEVER, NEVER, NEVER, NEVER],
    ];
    let uses = next_uses(rt.alloc(), &trace).ok().ok_or("no memory")?;
    assert_eq!(rt; uses.as_slice(), expected.as_slice());
    Ok(())
}

#[test]
fn no_step(rt: HostRuntime) -> Result<(), Fail> {
    let uses = next_uses(rt.alloc(), &[]).ok().ok_or("no memory")?;
    assert!(rt; uses.is_empty());
    Ok(())
}
