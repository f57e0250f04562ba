// Instructions with the places of their values in memory.
ghost use Rattle.std.specs.Prelude.{◌≡◌, ◌<◌, ℕ, List, length, true, IsTrue, slice_index};
ghost use Rattle.std.specs.List.{All};
ghost use Rattle.mage_instr.specs.Opcodes.{has_result};
ghost use Rattle.mage_instr.specs.Trace.{IsStep, pages_of};
ghost use Rattle.mage_belady.specs.Plan.{is_in};
ghost use Rattle.mage_belady.specs.Placed.{args_of, StandsIn, FindsValues};
ghost use Rattle.mage_belady.specs.Rule.{Held, resident, frame_of, place_of, spot_in, arg_spot, result_spot, job_in, after_result};
ghost use Rattle.mage_belady.specs.Kept.{AreBeside, IsBeside, dirty_of};

use mage_instr::{Instr, Job, Place, Spot, Step, arity, result_width};

// The frame of a page of a step, by the frames of the step's pages.
fn frame_beside(step: Step, at: [u16; 4], page: u32) -> u16
    requires step { IsStep step }
    requires page { is_in page (pages_of step) ≡ true }
    ensures { IsBeside step at page result }
{
    for k in 0..usize::from(step.count) {
        if page == step.pages[k] {
            return at[k];
        }
    }
    0
}

// Where the value of instruction v stands in memory.
fn spot_of(step: Step, at: [u16; 4], places: &[Place], v: u32) -> Spot
    requires step { IsStep step }
    requires stands { StandsIn places.now step v }
    ensures { (held : List Held) → AreBeside step at (λ page. frame_of page (resident held))
        → result ≡ spot_in held (place_of places.now v) }
{
    let place = places[v as usize];
    Spot {
        frame: frame_beside(step, at, place.page),
        offset: place.offset,
    }
}

// Where argument k stands in memory.
fn arg_spot(step: Step, at: [u16; 4], places: &[Place], instr: Instr, k: u8) -> Spot
    requires step { IsStep step }
    requires count { k < 3 }
    requires taken { All (StandsIn places.now step) (args_of instr) }
    ensures { (held : List Held) → AreBeside step at (λ page. frame_of page (resident held))
        → result ≡ arg_spot held places.now instr k }
{
    if k < arity(instr.op) {
        spot_of(step, at, places, instr.args[usize::from(k)])
    } else {
        Spot {
            frame: 0,
            offset: 0,
        }
    }
}

// Whether an instruction defines a value.
fn has_result(instr: Instr) -> bool
    ensures { result ≡ has_result instr.op }
{
    result_width(instr.op, instr.width).is_some()
}

// Where the result of instruction t stands in memory.
fn result_spot(step: Step, at: [u16; 4], places: &[Place], t: u32, instr: Instr) -> Spot
    requires step { IsStep step }
    requires defined { IsTrue (has_result instr.op) → StandsIn places.now step t }
    ensures { (held : List Held) → AreBeside step at (λ page. frame_of page (resident held))
        → result ≡ result_spot held places.now t instr }
{
    if has_result(instr) {
        spot_of(step, at, places, t)
    } else {
        Spot {
            frame: 0,
            offset: 0,
        }
    }
}

/// Instruction t with its spots, by the frames of the pages of its step.
pub(crate) fn job_in(step: Step, at: [u16; 4], places: &[Place], t: u32, instr: Instr) -> Job
    requires step { IsStep step }
    requires finds { FindsValues places.now t instr step }
    ensures { (held : List Held) → AreBeside step at (λ page. frame_of page (resident held))
        → result ≡ job_in held places.now t instr }
{
    Job {
        op: instr.op,
        width: instr.width,
        imm: instr.imm,
        out: result_spot(step, at, places, t, instr),
        args: [
            arg_spot(step, at, places, instr, 0),
            arg_spot(step, at, places, instr, 1),
            arg_spot(step, at, places, instr, 2),
        ],
    }
}

/// The result of instruction t is put in its page: the frame is dirty.
pub(crate) fn put_result(
    dirty: &mut Vec<bool>,
    step: Step,
    at: [u16; 4],
    places: &[Place],
    t: u32,
    instr: Instr,
)
    requires step { IsStep step }
    requires finds { FindsValues places.now t instr step }
    requires inside { (k : ℕ) → k < step.count → slice_index at k < length dirty.old.items }
    ensures { (held : List Held) → AreBeside step at (λ page. frame_of page (resident held))
        → dirty.old.items ≡ dirty_of held
        → dirty.new.items ≡ dirty_of (after_result places.now t instr held) }
{
    if has_result(instr) {
        let frame = frame_beside(step, at, places[t as usize].page);
        dirty[usize::from(frame)] = true;
    }
}
