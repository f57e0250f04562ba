// What plans cost, and the first fault of those that are none.
use super::*;
use std::test::Fail;

// Three values on a page each, of which two are handed out after the third came.
#[test]
fn three_pages_in_two_frames(rt: HostRuntime) -> Result<(), Fail> {
    let alloc = rt.alloc();
    let trace = [
        Step {
            pages: [0, 0, 0, 0],
            count: 1,
        },
        Step {
            pages: [1, 0, 0, 0],
            count: 1,
        },
        Step {
            pages: [2, 0, 0, 0],
            count: 1,
        },
        Step {
            pages: [0, 0, 0, 0],
            count: 1,
        },
        Step {
            pages: [1, 0, 0, 0],
            count: 1,
        },
    ];
    let mut plan = vec![in alloc;
        vec![in alloc; 0u32]?,
        vec![in alloc; 0, 1]?,
        vec![in alloc; 0, 2]?,
        vec![in alloc; 0, 2]?,
        vec![in alloc; 0, 1]?,
    ]?;
    assert_eq!(rt; cost(alloc, &trace, 2, &plan), Ok(1));
    plan[4] = vec![in alloc; 1]?;
    assert_eq!(rt; cost(alloc, &trace, 2, &plan), Ok(1));
    assert_eq!(rt;
        cost(alloc, &trace, 0, &plan),
        Err(CostFault::Over { step: 0 })
    );
    // with a frame for each page nothing is read
    let all = vec![in alloc;
        vec![in alloc; 0]?,
        vec![in alloc; 0, 1]?,
        vec![in alloc; 0, 1, 2]?,
        vec![in alloc; 0, 1, 2]?,
        vec![in alloc; 0, 1, 2]?,
    ]?;
    assert_eq!(rt; cost(alloc, &trace, 3, &all), Ok(0));
    assert_eq!(rt;
        cost(alloc, &trace, 2, &all),
        Err(CostFault::Over { step: 2 })
    );
    Ok(())
}

// The first fault of a plan, in the order of causes; a page that no step had before is no read.
#[test]
fn the_first_fault(rt: HostRuntime) -> Result<(), Fail> {
    let alloc = rt.alloc();
    let trace = [
        Step {
            pages: [0, 0, 0, 0],
            count: 1,
        },
        Step {
            pages: [1, 0, 0, 0],
            count: 1,
        },
    ];
    let fine = vec![in alloc; vec![in alloc; 0]?, vec![in alloc; 1]?]?;
    assert_eq!(rt; cost(alloc, &trace, 1, &fine), Ok(0));
    let lacks = vec![in alloc; vec![in alloc; 0]?, vec![in alloc; 0]?]?;
    assert_eq!(rt;
        cost(alloc, &trace, 1, &lacks),
        Err(CostFault::Misses { step: 1 })
    );
    let falls = vec![in alloc; vec![in alloc; 1, 0]?, vec![in alloc; 1]?]?;
    assert_eq!(rt;
        cost(alloc, &trace, 1, &falls),
        Err(CostFault::Order { step: 0 })
    );
    let short = vec![in alloc; vec![in alloc; 0]?]?;
    assert_eq!(rt; cost(alloc, &trace, 1, &short), Err(CostFault::Length));
    Ok(())
}
