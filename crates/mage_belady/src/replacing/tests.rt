// What `replace` lists for small programs, and that no other plan reads less, by trying each.
ghost use Rattle.std.specs.Prelude.{◌≡◌, ◌≤◌, ◌<◌, length, slice_index, IfOk, Contains};
ghost use Rattle.mage_instr.specs.Trace.{IsTrace, IsStep, pages_of};
ghost use Rattle.mage_belady.specs.Placed.{FitsTrace};
ghost use Rattle.mage_belady.specs.Rule.{page_uses};

use super::*;
use mage_instr::{Job, Op, Spot, Tight};
use mage_next::next_uses;
use std::test::Fail;

macro_rules! instr {
    ($op:ident $width:literal $first:literal $second:literal $third:literal) => {
        Instr { op: Op::$op, width: $width, args: [$first, $second, $third], imm: 0 }
    };
}

macro_rules! at {
    ($page:literal $offset:literal) => {
        Place { page: $page, offset: $offset }
    };
}

macro_rules! pages {
    ($first:literal) => {
        Step { pages: [$first, 0, 0, 0], count: 1 }
    };
    ($first:literal $second:literal) => {
        Step { pages: [$first, $second, 0, 0], count: 2 }
    };
    ($first:literal $second:literal $third:literal) => {
        Step { pages: [$first, $second, $third, 0], count: 3 }
    };
    ($first:literal $second:literal $third:literal $fourth:literal) => {
        Step { pages: [$first, $second, $third, $fourth], count: 4 }
    };
}

macro_rules! entry {
    ($kind:ident $frame:literal $page:literal) => {
        Replaced::$kind { frame: $frame, page: $page }
    };
}

// An instruction with its spots, each as frame and offset: that of the result, and those of the
// arguments.
fn job(op: Op, width: u8, out: (u16, u16), args: [(u16, u16); 3]) -> Replaced {
    Replaced::Do(Job {
        op,
        width,
        imm: 0,
        out: spot(out),
        args: [spot(args[0]), spot(args[1]), spot(args[2])],
    })
}

fn spot(at: (u16, u16)) -> Spot {
    let (frame, offset) = at;
    Spot { frame, offset }
}

fn input(frame: u16) -> Replaced {
    job(Op::Input, 64, (frame, 0), [(0, 0); 3])
}

fn output(frame: u16) -> Replaced {
    job(Op::Output, 64, (0, 0), [(frame, 0), (0, 0), (0, 0)])
}

// The list, by the next uses of the trace.
fn replaced(
    alloc: Global,
    instrs: &[Instr],
    places: &[Place],
    trace: &[Step],
    frames: u32,
) -> Result<Vec<Replaced>, ReplaceError>
    requires trace { IsTrace trace.now }
    requires places { FitsTrace instrs.now places.now trace.now }
    requires frames { frames ≤ 65536 }
{
    let nexts = next_uses(alloc, trace).map_err(|_| ReplaceError::Memory)?;
    replace(alloc, instrs, places, trace, nexts.as_slice(), frames)
}

// The list of five steps of a page each, in two frames. It takes at most 15 calls on the map.
fn counted<L: Ledger>(
    alloc: Global,
    instrs: &[Instr],
    places: &[Place],
    trace: &[Step],
    blank: Blank,
) -> Result<Vec<Replaced>, ReplaceError>
    requires trace { IsTrace trace.now }
    requires places { FitsTrace instrs.now places.now trace.now }
    requires five { page_uses trace.now ≡ 5 }
    requires name { blank.name ≡ L.name }
    requires parts { blank.parts ≡ L.parts }
    requires some { 0 < blank.parts }
{
    let nexts = next_uses(alloc, trace).map_err(|_| ReplaceError::Memory)?;
    let mut steps = Steps::<L>::new(blank);
    let list = replace_counted(alloc, instrs, places, trace, &nexts, 2, &mut steps)?;
    at_most_fifteen(&steps);
    Ok(list)
}

// No more than 15 steps were taken: what the call needs is proved, and nothing is done when it
// runs.
fn at_most_fifteen<L: Ledger>(_steps: &Steps<L>)
    requires { _steps.now ≤ 15 }
{}

// Three values on a page each, of which the first two are handed out. Where the third comes, page 1
// leaves, which is used after page 0; where page 1 comes back, page 0 leaves, since neither page is
// used again.
#[test]
fn the_page_used_latest_leaves(rt: HostRuntime) -> Result<(), Fail> {
    let instrs = [
        instr!(Input 64 0 0 0),
        instr!(Input 64 0 0 0),
        instr!(Input 64 0 0 0),
        instr!(Output 64 0 0 0),
        instr!(Output 64 1 0 0),
    ];
    let places = [at!(0 0), at!(1 0), at!(2 0), at!(0 0), at!(0 0)];
    let trace = [pages!(0), pages!(1), pages!(2), pages!(0), pages!(1)];
    let blank = Blank::new(1);
    let two = counted::<Brand>(rt.alloc(), &instrs, &places, &trace, blank)?;
    let expected = [
        entry!(Fresh 0 0),
        input(0),
        entry!(Fresh 1 1),
        input(1),
        entry!(Save 1 1),
        entry!(Fresh 1 2),
        input(1),
        output(0),
        entry!(Load 0 1),
        output(0),
    ];
    assert_eq!(rt; two.as_slice(), expected.as_slice());
    // with a frame for each page nothing is read
    let three = replaced(rt.alloc(), &instrs, &places, &trace, 3)?;
    let expected = [
        entry!(Fresh 0 0),
        input(0),
        entry!(Fresh 1 1),
        input(1),
        entry!(Fresh 2 2),
        input(2),
        output(0),
        output(1),
    ];
    assert_eq!(rt; three.as_slice(), expected.as_slice());
    Ok(())
}

// In one frame a page is saved where it leaves with a value that was put in it since it came, and
// only then.
#[test]
fn a_clean_page_is_not_saved(rt: HostRuntime) -> Result<(), Fail> {
    let instrs = [
        instr!(Input 64 0 0 0),
        instr!(Input 64 0 0 0),
        instr!(Output 64 0 0 0),
        instr!(Output 64 1 0 0),
        instr!(Output 64 0 0 0),
    ];
    let places = [at!(0 0), at!(1 0), at!(0 0), at!(0 0), at!(0 0)];
    let trace = [pages!(0), pages!(1), pages!(0), pages!(1), pages!(0)];
    let list = replaced(rt.alloc(), &instrs, &places, &trace, 1)?;
    let expected = [
        entry!(Fresh 0 0),
        input(0),
        entry!(Save 0 0),
        entry!(Fresh 0 1),
        input(0),
        entry!(Save 0 1),
        entry!(Load 0 0),
        output(0),
        entry!(Load 0 1),
        output(0),
        entry!(Load 0 0),
        output(0),
    ];
    assert_eq!(rt; list.as_slice(), expected.as_slice());
    Ok(())
}

// `input c; input a; input b; output mux(c, a, b);` with a bit and two numbers: four pages at
// instruction 3.
#[test]
fn four_pages_at_once(rt: HostRuntime) -> Result<(), Fail> {
    let instrs = [
        instr!(Input 1 0 0 0),
        instr!(Input 64 0 0 0),
        instr!(Input 64 0 0 0),
        instr!(Mux 64 0 1 2),
        instr!(Output 64 3 0 0),
    ];
    let places = [at!(0 0), at!(1 0), at!(2 0), at!(3 0), at!(0 0)];
    let trace = [pages!(0), pages!(1), pages!(2), pages!(0 1 2 3), pages!(3)];
    let tight = Tight::Frames {
        instr: 3,
        needs: 4,
        has: 3,
    };
    let three = replaced(rt.alloc(), &instrs, &places, &trace, 3).err();
    assert_eq!(rt; three, Some(ReplaceError::Tight(tight)));
    let four = replaced(rt.alloc(), &instrs, &places, &trace, 4)?;
    let expected = [
        entry!(Fresh 0 0),
        job(Op::Input, 1, (0, 0), [(0, 0); 3]),
        entry!(Fresh 1 1),
        input(1),
        entry!(Fresh 2 2),
        input(2),
        entry!(Fresh 3 3),
        job(Op::Mux, 64, (3, 0), [(0, 0), (1, 0), (2, 0)]),
        output(3),
    ];
    assert_eq!(rt; four.as_slice(), expected.as_slice());
    Ok(())
}

// `input a: u8; input b: u64; let c = a + a; let d = b ^ b; output c; output d;`: a and c stand on
// page 0, b on page 1, d on page 2. Page 0 leaves for page 2 and comes back; page 1 leaves for it
// with nothing that is used again.
#[test]
fn a_page_comes_back(rt: HostRuntime) -> Result<(), Fail> {
    let instrs = [
        instr!(Input 8 0 0 0),
        instr!(Input 64 0 0 0),
        instr!(Add 8 0 0 0),
        instr!(Xor 64 1 1 0),
        instr!(Output 8 2 0 0),
        instr!(Output 64 3 0 0),
    ];
    let places = [at!(0 0), at!(1 0), at!(0 8), at!(2 0), at!(0 0), at!(0 0)];
    let trace = [
        pages!(0),
        pages!(1),
        pages!(0),
        pages!(1 2),
        pages!(0),
        pages!(2),
    ];
    let tight = Tight::Frames {
        instr: 3,
        needs: 2,
        has: 1,
    };
    let one = replaced(rt.alloc(), &instrs, &places, &trace, 1).err();
    assert_eq!(rt; one, Some(ReplaceError::Tight(tight)));
    let two = replaced(rt.alloc(), &instrs, &places, &trace, 2)?;
    let expected = [
        entry!(Fresh 0 0),
        job(Op::Input, 8, (0, 0), [(0, 0); 3]),
        entry!(Fresh 1 1),
        input(1),
        job(Op::Add, 8, (0, 8), [(0, 0), (0, 0), (0, 0)]),
        entry!(Save 0 0),
        entry!(Fresh 0 2),
        job(Op::Xor, 64, (0, 0), [(1, 0), (1, 0), (0, 0)]),
        entry!(Load 1 0),
        job(Op::Output, 8, (0, 0), [(1, 8), (0, 0), (0, 0)]),
        output(0),
    ];
    assert_eq!(rt; two.as_slice(), expected.as_slice());
    Ok(())
}

// Below, a set of pages 0 to 3 is a number with a bit for each page.
const SETS: [usize; 6] = [0b0001, 0b0010, 0b0100, 0b1000, 0b0011, 0b1110];

// Inputs, each on the first page of its step.
#[derive(Drop)]
struct Inputs {
    instrs: Vec<Instr>,
    places: Vec<Place>,
    trace: Vec<Step>,
}

// The step with a set of pages.
fn step_of(set: usize) -> Step
    ensures step { IsStep result }
    ensures first { Contains (pages_of result) (slice_index result.pages 0) }
{
    match set {
        0b0001 => pages!(0),
        0b0010 => pages!(1),
        0b0100 => pages!(2),
        0b1000 => pages!(3),
        0b0011 => pages!(0 1),
        _ => pages!(1 2 3),
    }
}

// Inputs whose steps have these sets of pages.
fn inputs_of(alloc: Global, sets: &[usize]) -> Result<Inputs, Memory>
    requires { length sets.now ≤ 8 }
    ensures trace { IfOk result (λ inputs. IsTrace inputs.trace.items) }
    ensures places { IfOk result (λ inputs.
        FitsTrace inputs.instrs.items inputs.places.items inputs.trace.items) }
{
    let (mut instrs, mut places, mut trace) = (Vec::new(alloc), Vec::new(alloc), Vec::new(alloc));
    for set in sets {
        let step = step_of(*set);
        instrs.push(instr!(Input 64 0 0 0))?;
        places.push(Place {
            page: step.pages[0],
            offset: 0,
        })?;
        trace.push(step)?;
    }
    Ok(Inputs {
        instrs,
        places,
        trace,
    })
}

// The loads of the list, or `None` where a step doesn't fit the frames.
fn loads(alloc: Global, inputs: &Inputs, frames: u32) -> Result<Option<u64>, Memory>
    requires trace { IsTrace inputs.now.trace.items }
    requires places { FitsTrace inputs.now.instrs.items inputs.now.places.items
        inputs.now.trace.items }
    requires frames { frames ≤ 65536 }
{
    let list = replaced(alloc, &inputs.instrs, &inputs.places, &inputs.trace, frames);
    match list {
        Ok(list) => Ok(Some(count_loads(&list))),
        Err(ReplaceError::Tight(_)) => Ok(None),
        Err(ReplaceError::Memory) => Err(Memory),
    }
}

fn count_loads(list: &[Replaced]) -> u64 {
    let loads = list
        .iter()
        .filter(|entry| matches!(entry, Replaced::Load { .. }));
    loads.count() as u64
}

// The reads of the best plan for steps with these sets of pages, or `None` where there is no plan:
// every set of pages is tried behind every other. `fewest` has, for each set, the reads of the best
// plan so far that ends with it.
fn fewest_reads(sets: &[usize], frames: u32) -> Option<u64> {
    let mut fewest = [u64::MAX; 16];
    fewest[0] = 0;
    let mut seen = 0;
    for pages in sets {
        fewest = after_step(&fewest, *pages, seen, frames);
        seen |= *pages;
    }
    fewest
        .iter()
        .copied()
        .min()
        .filter(|reads| *reads < u64::MAX)
}

// The same one step later.
fn after_step(fewest: &[u64; 16], pages: usize, seen: usize, frames: u32) -> [u64; 16] {
    let mut after = [u64::MAX; 16];
    for set in 0..16usize {
        if set & pages == pages && set.count_ones() <= frames {
            after[set] = fewest_before(fewest, set & seen);
        }
    }
    after
}

// The same at a set which has these pages of the steps before.
fn fewest_before(fewest: &[u64; 16], had: usize) -> u64 {
    let mut best = u64::MAX;
    for before in 0..16usize {
        let reads = u64::from((had & !before).count_ones());
        best = best.min(fewest[before].saturating_add(reads));
    }
    best
}

// The sets of five steps: the digits of a number to the base 6.
fn sets_of(code: usize) -> [usize; 5] {
    let mut sets = [0; 5];
    let mut rest = code;
    for k in 0..5 {
        sets[k] = SETS[rest % 6];
        rest /= 6;
    }
    sets
}

// Each trace of five of the sets, in one to four frames.
#[test]
fn no_plan_reads_fewer(rt: HostRuntime) -> Result<(), Fail> {
    for code in 0..7776 {
        let sets = sets_of(code);
        let inputs = inputs_of(rt.alloc(), &sets)?;
        for frames in 1..5 {
            let found = loads(rt.alloc(), &inputs, frames)?;
            assert_eq!(rt;
                found,
                fewest_reads(&sets, frames),
                "{code} in {frames} frames"
            );
        }
    }
    Ok(())
}
