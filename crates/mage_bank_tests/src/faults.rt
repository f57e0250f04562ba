// An instruction whose driver stops.
use crate::holding::holds;
use crate::stopped;
use mage_base::Memory;
use mage_instr::{DriverFault, Job, Op, Spot};

#[test]
fn leaves_the_frames_after_a_fault(rt: HostRuntime) -> Result<(), Memory> {
    let spot = Spot {
        frame: 1,
        offset: 60,
    };
    let job = Job {
        op: Op::Mul,
        width: 4,
        imm: 0,
        out: spot,
        args: [spot, spot, spot],
    };
    let (bank, fault) = stopped(rt.alloc(), job, 3)?;
    assert_eq!(rt; fault, Some(DriverFault::Short { at: 3 }));
    assert!(rt; holds(bank.as_slice(), 1, 0, &[0; 64]));
    let (_, none) = stopped(rt.alloc(), job, 100)?;
    assert_eq!(rt; none, None);
    Ok(())
}
