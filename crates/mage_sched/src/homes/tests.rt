use super::*;
use std::test::Fail;

macro_rules! read {
    ($slot:literal $page:literal) => {
        Directive::IssueIn { slot: $slot, page: $page }
    };
}

macro_rules! take {
    ($slot:literal $frame:literal) => {
        Directive::FinishIn { slot: $slot, frame: $frame }
    };
}

macro_rules! issued {
    ($slot:literal $frame:literal $page:literal) => {
        Directive::IssueOut { slot: $slot, frame: $frame, page: $page }
    };
}

macro_rules! freed {
    ($slot:literal) => {
        Directive::FinishOut { slot: $slot }
    };
}

// Page 7 lets store page 0 go where it was last read, and page 9 takes it. Page 4 is read twice, and keeps store page 1.
#[test]
fn a_store_page_is_used_again(rt: HostRuntime) -> Result<(), Fail> {
    let directives = [
        issued!(0 0 7),
        freed!(0),
        issued!(1 1 4),
        freed!(1),
        read!(0 7),
        read!(1 4),
        take!(1 1),
        take!(0 2),
        issued!(0 0 9),
        freed!(0),
        read!(1 4),
        take!(1 0),
        read!(0 9),
        take!(0 1),
    ];
    let (found, count) = homed(rt.alloc(), &directives)?;
    let expected = [
        issued!(0 0 0),
        freed!(0),
        issued!(1 1 1),
        freed!(1),
        read!(0 0),
        read!(1 1),
        take!(1 1),
        take!(0 2),
        issued!(0 0 0),
        freed!(0),
        read!(1 1),
        take!(1 0),
        read!(0 0),
        take!(0 1),
    ];
    assert_eq!(rt; found.as_slice(), expected.as_slice());
    assert_eq!(rt; count, 2);
    Ok(())
}
