// Machines in plain over ports and links: values that are put out, answers one by one, and what a machine waits for or stops at.
ghost use Rattle.mage_directives.specs.Directives.{IsMemProgram};

use crate::{
    Answer, Handed, answers_of, hands_over, leaves_at, over_port, pair_of, part_of, plainly,
    sealed_for, slow_for, words_of,
};
use mage_base::{Damage, Memory, StoreCounts};
use mage_engine::{Turn, Why};
use mage_instr::{MachineFault, MemProgram};
use mage_log_store::Lie;
use mage_small_programs::{handing_over, keeping, swapping};
use std::alloc::Global;
use std::test::Fail;

// The answers in words, and what was put out.
#[derive(Drop)]
struct Run {
    words: String,
    outputs: Vec<u128>,
}

// What so many steps of one worker answer over a store of whose calls these fail, and what it puts out, where the garbler's
// values are 7, 8 and 9.
fn alone(alloc: Global, plan: MemProgram, fails: &[u64], count: u32) -> Result<Run, Memory>
    requires { IsMemProgram plan }
{
    let part = part_of(alloc, plan)?;
    let machine = plainly(alloc, part, &[7, 8, 9], fails)?;
    let went = answers_of(alloc, machine, count)?;
    Ok(Run {
        words: words_of(alloc, went.answers.as_slice())?,
        outputs: Vec::from_slice(alloc, went.driver.outputs())?,
    })
}

// What the store counted after these steps, of whose calls the first fails.
fn counted(alloc: Global, plan: MemProgram, count: u32) -> Result<StoreCounts, Memory>
    requires { IsMemProgram plan }
{
    let part = part_of(alloc, plan)?;
    let machine = plainly(alloc, part, &[7, 8, 9], &[0])?;
    let went = answers_of(alloc, machine, count)?;
    Ok(went.port.close().counts())
}

// The same over a port where each transfer is under way for two asks.
fn slowly(alloc: Global, plan: MemProgram, count: u32) -> Result<Run, Memory>
    requires { IsMemProgram plan }
{
    let part = part_of(alloc, plan)?;
    let port = slow_for(alloc, &part, 2)?;
    let machine = over_port(alloc, part, &[7, 8, 9], port)?;
    let went = answers_of(alloc, machine, count)?;
    Ok(Run {
        words: words_of(alloc, went.answers.as_slice())?,
        outputs: Vec::from_slice(alloc, went.driver.outputs())?,
    })
}

// What the first 12 steps answer over a sealed port, where a byte of the first read is altered by this mask.
fn lied_to(alloc: Global, plan: MemProgram, mask: u8) -> Result<Vec<Answer>, Memory>
    requires { IsMemProgram plan }
{
    let lie = Lie {
        read: 0,
        byte: 3,
        mask,
    };
    let part = part_of(alloc, plan)?;
    let port = sealed_for(alloc, &part, &[lie])?;
    let machine = over_port(alloc, part, &[7, 8, 9], port)?;
    let went = answers_of(alloc, machine, 12)?;
    Ok(went.answers)
}

// What one worker with one frame puts out, where the garbler's value is 1, and whether its write leaves the frame.
fn in_one_frame(alloc: Global, plan: MemProgram) -> Result<(Option<bool>, Vec<u128>), Memory>
    requires { IsMemProgram plan }
{
    let part = part_of(alloc, plan)?;
    let leaves = leaves_at(&part, 2);
    let machine = plainly(alloc, part, &[1], &[])?;
    let went = answers_of(alloc, machine, 7)?;
    Ok((leaves, Vec::from_slice(alloc, went.driver.outputs())?))
}

// What two workers answer that hand the value 7 over.
fn over_links(alloc: Global, plan: MemProgram) -> Result<Handed, Memory>
    requires { IsMemProgram plan }
{
    let (first, second) = pair_of(alloc, plan)?;
    let sending = plainly(alloc, first, &[7], &[])?;
    let receiving = plainly(alloc, second, &[], &[])?;
    hands_over(alloc, sending, receiving)
}

// Whether the step of this number, from 0, answered so.
fn is_at(answers: &[Answer], place: usize, wanted: Answer) -> bool {
    answers.get(place) == Some(&wanted)
}

// The page that comes back altered: the 64 wires of the value 8, and as many of the value 0. The digests are another program's.
const DAMAGE: Damage = Damage {
    page: 0,
    kept: [
        0x18, 0xae, 0x4c, 0xcb, 0xda, 0x95, 0x38, 0x83, 0x9d, 0x79, 0xbb, 0x18, 0xca, 0x09, 0xe2,
        0x3e, 0x24, 0xae, 0x8c, 0x15, 0x50, 0xf5, 0x6c, 0xbb, 0x3d, 0x84, 0xb0, 0x53, 0x31, 0xff,
        0xf4, 0x01,
    ],
    found: [
        0xf5, 0xa5, 0xfd, 0x42, 0xd1, 0x6a, 0x20, 0x30, 0x27, 0x98, 0xef, 0x6e, 0xd3, 0x09, 0x97,
        0x9b, 0x43, 0x00, 0x3d, 0x23, 0x20, 0xd9, 0xf0, 0xe8, 0xea, 0x98, 0x31, 0xa9, 0x27, 0x59,
        0xfb, 0x4b,
    ],
};

#[test]
fn a_page_goes_out_and_comes_in(rt: HostRuntime) -> Result<(), Fail> {
    let run = alone(rt.alloc(), swapping(rt.alloc())?, &[], 15)?;
    let wanted = "do do do do ask do do do finish ask finish do do ended ended ";
    assert_eq!(rt; run.words.as_str(), wanted);
    assert_eq!(rt; run.outputs.as_slice(), [7, 8].as_slice());
    Ok(())
}

#[test]
fn its_write_leaves_the_frame(rt: HostRuntime) -> Result<(), Fail> {
    let part = part_of(rt.alloc(), swapping(rt.alloc())?)?;
    assert_eq!(rt; leaves_at(&part, 4), Some(true));
    Ok(())
}

#[test]
fn a_transfer_under_way_is_waited_for(rt: HostRuntime) -> Result<(), Fail> {
    let run = slowly(rt.alloc(), swapping(rt.alloc())?, 18)?;
    let wanted = "do do do do ask do do do slot slot finish ask slot slot finish do do ended ";
    assert_eq!(rt; run.words.as_str(), wanted);
    assert_eq!(rt; run.outputs.as_slice(), [7, 8].as_slice());
    Ok(())
}

// The write fails, or the read does; the fault is answered again.
#[test]
fn a_store_that_fails_stops_the_machine(rt: HostRuntime) -> Result<(), Fail> {
    let run = alone(rt.alloc(), swapping(rt.alloc())?, &[0], 11)?;
    assert_eq!(rt;
        run.words.as_str(),
        "do do do do ask do do do store store store "
    );
    let run = alone(rt.alloc(), swapping(rt.alloc())?, &[1], 13)?;
    let wanted = "do do do do ask do do do finish ask store store store ";
    assert_eq!(rt; run.words.as_str(), wanted);
    assert_eq!(rt; run.outputs.as_slice(), [7].as_slice());
    Ok(())
}

// After its fault a store isn't called any more.
#[test]
fn nothing_is_asked_after_a_fault(rt: HostRuntime) -> Result<(), Fail> {
    let counts = counted(rt.alloc(), swapping(rt.alloc())?, 15)?;
    let wanted = StoreCounts {
        reads: 0,
        writes: 0,
        faults: 1,
    };
    assert_eq!(rt; counts, wanted);
    Ok(())
}

#[test]
fn a_damaged_page_stops_the_machine(rt: HostRuntime) -> Result<(), Fail> {
    let answers = lied_to(rt.alloc(), swapping(rt.alloc())?, 1)?;
    let damaged = Err(MachineFault::Damaged(DAMAGE));
    assert!(rt; is_at(answers.as_slice(), 10, damaged));
    assert!(rt; is_at(answers.as_slice(), 11, damaged));
    let answers = lied_to(rt.alloc(), swapping(rt.alloc())?, 0)?;
    let words = words_of(rt.alloc(), answers.as_slice())?;
    assert_eq!(rt;
        words.as_str(),
        "do do do do ask do do do finish ask finish do "
    );
    Ok(())
}

// What was written is put out behind the write, from the frame that it was written from.
#[test]
fn a_frame_that_is_used_again_is_kept(rt: HostRuntime) -> Result<(), Fail> {
    let (leaves, outputs) = in_one_frame(rt.alloc(), keeping(rt.alloc())?)?;
    assert_eq!(rt; leaves, Some(false));
    assert_eq!(rt; outputs.as_slice(), [1].as_slice());
    Ok(())
}

#[test]
fn a_value_goes_over_wire_by_wire(rt: HostRuntime) -> Result<(), Fail> {
    let went = over_links(rt.alloc(), handing_over(rt.alloc())?)?;
    let empty = Ok(Turn::Blocked(Why::Empty { from: 0 }));
    let full = Ok(Turn::Blocked(Why::Full { to: 1 }));
    let early = words_of(rt.alloc(), went.early.as_slice())?;
    assert_eq!(rt; early.as_str(), "do empty empty ");
    assert!(rt; is_at(went.early.as_slice(), 1, empty));
    let begun = words_of(rt.alloc(), went.begun.as_slice())?;
    assert_eq!(rt; begun.as_str(), "do do push full full ");
    assert!(rt; is_at(went.begun.as_slice(), 3, full));
    assert!(rt; is_at(went.late.as_slice(), 66, Ok(Turn::Ended)));
    assert_eq!(rt; went.outputs.as_slice(), [7].as_slice());
    Ok(())
}
