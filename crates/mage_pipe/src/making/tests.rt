// The plan of a small source, by hand from the rules.
ghost use Rattle.std.specs.Prelude.{◌≤◌};
ghost use Rattle.mage_instr.specs.Limits.{AreInRange};

use crate::{PlanFault, Planned, WorkerStats, load, plan, planned};
use mage_instr::{Directive, Limits, Tight};
use std::alloc::Global;
use std::test::Fail;

// Three values on a page each, of which the first two are handed out.
const THREE_PAGES: &str =
    "input garbler a: u64; input garbler b: u64; input garbler c: u64; output a; output b;";

// Page 1 leaves for page 2, and comes back in place of page 0, through the one slot and the one store page.
const ONE_SLOT: [Directive; 7] = [
    Directive::Fresh { frame: 0, page: 0 },
    Directive::Fresh { frame: 1, page: 1 },
    Directive::IssueOut {
        slot: 0,
        frame: 1,
        page: 0,
    },
    Directive::Fresh { frame: 1, page: 2 },
    Directive::FinishOut { slot: 0 },
    Directive::IssueIn { slot: 0, page: 0 },
    Directive::FinishIn { slot: 0, frame: 0 },
];

// All directives of that plan; `None` stands for an instruction that is done.
const TWELVE: [Option<Directive>; 12] = [
    Some(Directive::Fresh { frame: 0, page: 0 }),
    None,
    Some(Directive::Fresh { frame: 1, page: 1 }),
    None,
    Some(Directive::IssueOut {
        slot: 0,
        frame: 1,
        page: 0,
    }),
    Some(Directive::Fresh { frame: 1, page: 2 }),
    None,
    None,
    Some(Directive::FinishOut { slot: 0 }),
    Some(Directive::IssueIn { slot: 0, page: 0 }),
    Some(Directive::FinishIn { slot: 0, frame: 0 }),
    None,
];

// What it costs.
const COSTS: WorkerStats = WorkerStats {
    instructions: 5,
    pages: 3,
    needs: 1,
    reads: 1,
    writes: 1,
};

// Limits with two frames of 64 wires.
fn limits(buffer: u16) -> Limits
    requires { buffer ≤ 64 }
    ensures { AreInRange result }
{
    Limits {
        page: 64,
        frames: 2,
        buffer,
        ahead: 64,
    }
}

// Whether directives are these, but for the instructions that are done.
fn are_transfers(part: &[Directive], wanted: &[Directive]) -> bool {
    let mut k = 0;
    for d in 0..part.len() {
        if let Directive::Do(_) = part[d] {
            continue;
        }
        if k >= wanted.len() || wanted[k] != part[d] {
            return false;
        }
        k += 1;
    }
    k == wanted.len()
}

// Whether a source has one worker, whose directives are these and whose store has so many pages.
fn is_planned(alloc: Global, limits: Limits, wanted: &[Directive], store: u32) -> bool
    requires { AreInRange limits }
{
    match plan(alloc, THREE_PAGES.as_bytes(), limits) {
        Ok(plan) => match (plan.workers.as_slice(), plan.stores.as_slice()) {
            ([part], [pages]) => are_transfers(part.as_slice(), wanted) && *pages == store,
            _ => false,
        },
        Err(_) => false,
    }
}

// Whether a directive is this one, or an instruction that is done.
fn is_wanted(directive: Directive, wanted: Option<Directive>) -> bool {
    if let Some(one) = wanted {
        return directive == one;
    }
    if let Directive::Do(_) = directive {
        return true;
    }
    false
}

// Whether directives are these, one by one.
fn are_wanted(part: &[Directive], wanted: &[Option<Directive>]) -> bool {
    for d in 0..part.len().min(wanted.len()) {
        if !is_wanted(part[d], wanted[d]) {
            return false;
        }
    }
    part.len() == wanted.len()
}

// Whether a plan of one worker has those directives, a store page, and those costs.
fn is_wanted_at_once(planned: &Planned) -> bool {
    let parts = planned.program.workers.as_slice();
    let stores = planned.program.stores.as_slice();
    match (parts, stores, planned.stats.as_slice()) {
        ([part], [pages], [costs]) => {
            are_wanted(part.as_slice(), &TWELVE) && *pages == 1 && *costs == COSTS
        }
        _ => false,
    }
}

// Whether a source is loaded, and then is planned and costs so much.
fn is_planned_at_once(alloc: Global, text: &[u8], limits: Limits) -> bool
    requires { AreInRange limits }
{
    match load(alloc, text) {
        Ok(loaded) => match planned(alloc, &loaded, limits) {
            Ok(planned) => is_wanted_at_once(&planned),
            Err(_) => false,
        },
        Err(_) => false,
    }
}

// Whether there is no plan, for want of a slot.
fn wants_a_slot(alloc: Global, limits: Limits, instr: u32) -> bool
    requires { AreInRange limits }
{
    match plan(alloc, THREE_PAGES.as_bytes(), limits) {
        Ok(_) => false,
        Err(fault) => {
            fault
                == PlanFault::Tight {
                    worker: 0,
                    tight: Tight::Buffer { instr },
                }
        }
    }
}

#[test]
fn a_page_leaves_and_comes_back(rt: HostRuntime) -> Result<(), Fail> {
    let alloc = rt.alloc();
    let one = is_planned(alloc, limits(1), &ONE_SLOT, 1);
    let none = wants_a_slot(alloc, limits(0), 2);
    assert!(rt; one && none);
    Ok(())
}

// The memory program and its costs from what was loaded: twelve directives, one store page, one read and one write.
#[test]
fn a_loaded_source_is_planned_with_its_costs(rt: HostRuntime) -> Result<(), Fail> {
    let alloc = rt.alloc();
    let both = is_planned_at_once(alloc, THREE_PAGES.as_bytes(), limits(1));
    assert!(rt; both);
    Ok(())
}
