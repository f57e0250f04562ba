// The public call: the source is executed once, and its instructions are handed to their workers.
ghost use Rattle.std.specs.Prelude.{◌≡◌, ◌≤◌, length, map, IfOk, IfErr};
ghost use Rattle.std.specs.Option.{option_copied};
ghost use Rattle.mage_constants.specs.Answer.{Gives};
ghost use Rattle.std.specs.List.{All};
ghost use Rattle.mage_instr.specs.Sound.{IsSound};
ghost use Rattle.mage_unroll.specs.Kinds.{IsUnrolling};
ghost use Rattle.mage_linked.specs.Emission.{own_instrs, program_of};
ghost use Rattle.mage_linked.specs.Linked.{IsLinked};
ghost use Rattle.mage_unroll.specs.Limits.{MOST_INSTRS as most_instrs};
ghost use Rattle.mage_unroll.specs.Unrolled.{workers_in, workers_of, opening, emitted_by, unrolled_of};
ghost use Rattle.mage_unroll.specs.Unroller.{state_of};

use crate::emission::Emission;
use crate::execution::all;
use crate::unroller::Unroller;
use mage_base::Memory;
use mage_constants::{fault_at, number_of};
use mage_instr::{Instr, MOST_WORKERS, Program};
use mage_lex::{LangFault, LangKind, Token};
use mage_linked::Emitted;
use mage_scopes::Scopes;
use mage_tree::{Source, Stmt};
use sqlite_items::Items;
use std::alloc::Global;

// A number of workers: 1 to 16.
fn workers_in(number: u128) -> Option<u8>
    ensures { result ≡ workers_in number }
{
    if 1 <= number && number <= u128::from(MOST_WORKERS) {
        Some(number as u8)
    } else {
        None
    }
}

// The number of workers that a source has.
fn workers_of(count: Option<&Token>) -> Result<u8, LangFault>
    ensures { Gives (λ x. x) result (workers_of (option_copied count.entry)) }
{
    match count {
        None => Ok(1),
        Some(number) => {
            workers_in(number_of(number)).ok_or(fault_at(LangKind::BadWorker, number))
        }
    }
}

// What is kept at the start.
#[tactic(auto, unfolding(crate::specs::Unroller::state_of))]
fn opening<'a>(alloc: Global, workers: u8) -> Result<Unroller<'a>, Memory>
    ensures { IfOk result (λ unroller. state_of unroller ≡ opening workers) }
{
    Ok(Unroller {
        alloc,
        scopes: Scopes::none(alloc)?,
        emission: Emission::none(alloc),
        steps: 0,
        worker: 0,
        workers,
    })
}

// The instructions of statements, with so many workers, in the order of their emission.
#[tactic(auto, unfolding(crate::specs::Unroller::state_of, crate::specs::Unrolled::emitted_by))]
fn emitted_of(alloc: Global, workers: u8, body: &[Stmt]) -> Result<Vec<Emitted>, LangFault>
    ensures { Gives (λ program. program.items) result (emitted_by workers body.now) }
{
    let mut unroller = opening(alloc, workers)?;
    all(&mut unroller, body)?;
    Ok(unroller.emission.into_emitted())
}

// The instructions of a worker.
fn own_instrs(alloc: Global, emitted: &[Emitted], worker: u8) -> Result<Items<Instr>, Memory>
    ensures { IfOk result (λ instrs. instrs ≡ own_instrs emitted.now worker) }
{
    let mut instrs = Items::new(alloc);
    for entry in emitted {
        if entry.worker == worker {
            instrs.push(entry.instr)?;
        }
    }
    Ok(instrs)
}

// The worker of each instruction, in the order of emission.
fn order_of(alloc: Global, emitted: &[Emitted]) -> Result<Items<u8>, Memory>
    ensures { IfOk result (λ order. order ≡ map (λ e. e.worker) emitted.now) }
{
    let order: Vec<u8> = emitted.iter().map(|entry| entry.worker).collect(alloc)?;
    Ok(Items::from_vec(order))
}

// The program, with the instructions of each worker.
fn program_of(alloc: Global, workers: u8, emitted: &[Emitted]) -> Result<Program, Memory>
    ensures { IfOk result (λ program. program ≡ program_of workers emitted.now) }
{
    let mut lists = Items::new(alloc);
    for worker in 0..workers {
        lists.push(own_instrs(alloc, emitted, worker)?)?;
    }
    Ok(Program {
        workers: lists,
        order: order_of(alloc, emitted)?,
    })
}

// The program of the parts of a source.
#[tactic(auto, unfolding(crate::specs::Unrolled::unrolled_of))]
fn assembled(alloc: Global, count: Option<&Token>, body: &[Stmt]) -> Result<Program, LangFault>
    ensures { Gives (λ program. program) result (unrolled_of (option_copied count.entry) body.now) }
{
    let workers = workers_of(count)?;
    let emitted = emitted_of(alloc, workers, body)?;
    Ok(program_of(alloc, workers, &emitted)?)
}

/// The program of instructions that the source unrolls to: the source is executed once, statement
/// by statement, from worker 0 on, and each instruction is emitted on a worker.
///
/// `At` with the first fault in the order of execution: an unknown or a taken name, widths or
/// workers that differ, an index out of range, a constant that has no value in range, a type or a
/// worker that isn't one, or `TooLong` at the statement that would take step 16,000,001 or
/// instruction 2,000,001. `Memory` where there was none.
pub fn unroll(alloc: Global, source: &Source) -> Result<Program, LangFault>
    // The program, or the first fault.
    ensures program { Gives (λ program. program) result
        (unrolled_of source.now.workers source.now.body) }
    // A fault is of a kind that unrolling has.
    ensures kinds { IfErr result IsUnrolling }
    // Each worker's instructions can run, one after the other.
    ensures sound { IfOk result (λ program. All IsSound program.workers) }
    // Each value that is sent is received at once, by the worker that it is sent to.
    ensures linked { IfOk result IsLinked }
    ensures few { IfOk result (λ program. length program.order ≤ most_instrs) }
{
    assembled(alloc, source.workers(), source.body())
}
