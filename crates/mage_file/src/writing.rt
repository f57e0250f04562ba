// Writing a file.
ghost use Rattle.std.specs.Prelude.{◌≡◌, ◌≤◌, true, length, IfOk};
ghost use Rattle.std.specs.Int.{w8, w16, w32, w64};
ghost use Rattle.mage_directives.specs.Directives.{IsMemProgram};
ghost use Rattle.mage_file.specs.declared.version.Version.TheVariants as version;
ghost use Rattle.mage_file.specs.Codes.{kind_of};
ghost use Rattle.mage_file.specs.Formats.{Adds, number, listed};
ghost use Rattle.mage_file.specs.Grammar as grammar;

use crate::kind::Kind;
use crate::kinds::{code, is_const, kind_of};
use mage_base::Memory;
use mage_instr::{Directive, Job, Limits, MemProgram, Spot};
use sqlite_items::Items;
use std::alloc::Global;

/// The bytes of the file of a memory program, its one spelling. It has at most 1,073,741,824 bytes.
#[tactic(auto, unfolding(crate::specs::Formats::chain, crate::specs::Formats::done, crate::specs::Grammar::file))]
pub fn write(alloc: Global, plan: &MemProgram) -> Result<Vec<u8>, Memory>
    requires in_range { IsMemProgram plan.now }
    requires short { length (grammar.spelling_of plan.now) ≤ grammar.most_bytes }
    ensures { IfOk result (λ bytes. bytes.items ≡ grammar.spelling_of plan.now) }
{
    let mut out = Vec::new(alloc);
    put_head(&mut out, plan.workers.len())?;
    put_limits(&mut out, plan.limits)?;
    put_sections(&mut out, plan.stores.as_slice(), plan.workers.as_slice())?;
    Ok(out)
}

// What each of these adds stands in front of whatever comes behind it.

fn put_u8(out: &mut Vec<u8>, value: u8) -> Result<(), Memory>
    ensures { Adds (number w8) value result
        out.old.items out.new.items }
{
    out.extend_from_slice(&value.to_be_bytes())?;
    Ok(())
}

fn put_u16(out: &mut Vec<u8>, value: u16) -> Result<(), Memory>
    ensures { Adds (number w16) value result
        out.old.items out.new.items }
{
    out.extend_from_slice(&value.to_be_bytes())?;
    Ok(())
}

fn put_u32(out: &mut Vec<u8>, value: u32) -> Result<(), Memory>
    ensures { Adds (number w32) value result
        out.old.items out.new.items }
{
    out.extend_from_slice(&value.to_be_bytes())?;
    Ok(())
}

fn put_u64(out: &mut Vec<u8>, value: u64) -> Result<(), Memory>
    ensures { Adds (number w64) value result
        out.old.items out.new.items }
{
    out.extend_from_slice(&value.to_be_bytes())?;
    Ok(())
}

// The first fields, with how many workers there are.
fn put_head(out: &mut Vec<u8>, workers: usize) -> Result<(), Memory>
    ensures { Adds (grammar.head version.Second) workers result
        out.old.items out.new.items }
{
    out.extend_from_slice(b"MAGEMP02")?;
    out.extend_from_slice(&workers.to_be_bytes()[6..])?;
    put_u16(out, 0)?;
    Ok(())
}

fn put_limits(out: &mut Vec<u8>, limits: Limits) -> Result<(), Memory>
    ensures { Adds grammar.limits limits result
        out.old.items out.new.items }
{
    put_u32(out, limits.page)?;
    put_u32(out, limits.frames)?;
    put_u32(out, limits.buffer as u32)?;
    put_u32(out, limits.ahead)?;
    Ok(())
}

// The part of each worker.
fn put_sections(
    out: &mut Vec<u8>,
    stores: &[u32],
    workers: &[Items<Directive>],
) -> Result<(), Memory>
    requires { length stores.now ≡ length workers.now }
    ensures { Adds (listed 0 (λ _. grammar.section version.Second 0 0)) (grammar.sections_of stores.now workers.now) result
        out.old.items out.new.items }
{
    for worker in 0..workers.len() {
        put_section(out, stores[worker], workers[worker].as_slice())?;
    }
    Ok(())
}

// How many pages a worker's store has, how many directives the worker has, and these. The bytes are the same in each
// worker's part.
fn put_section(out: &mut Vec<u8>, pages: u32, directives: &[Directive]) -> Result<(), Memory>
    ensures { Adds (grammar.section version.Second 0 0) (record { pages = pages; directives = directives.now }) result
        out.old.items out.new.items }
{
    put_u32(out, pages)?;
    out.extend_from_slice(&directives.len().to_be_bytes()[4..])?;
    put_directives(out, directives)
}

fn put_directives(out: &mut Vec<u8>, directives: &[Directive]) -> Result<(), Memory>
    ensures { Adds (listed 0 (λ _. grammar.directive 0 0)) directives.now result
        out.old.items out.new.items }
{
    for directive in directives {
        put_directive(out, *directive)?;
    }
    Ok(())
}

fn put_directive(out: &mut Vec<u8>, directive: Directive) -> Result<(), Memory>
    ensures { Adds (grammar.directive 0 0) directive result
        out.old.items out.new.items }
{
    put_code(out, kind_of(directive))?;
    put_behind(out, directive)
}

fn put_code(out: &mut Vec<u8>, kind: Kind) -> Result<(), Memory>
    ensures { Adds grammar.code kind result
        out.old.items out.new.items }
{
    put_u8(out, code(kind))
}

// What stands behind the code of a directive.
#[tactic(auto, unfolding(crate::specs::Formats::chain, crate::specs::Formats::done, crate::specs::Formats::field, crate::specs::Grammar::row, crate::specs::Grammar::directive_of))]
fn put_behind(out: &mut Vec<u8>, directive: Directive) -> Result<(), Memory>
    ensures { Adds (grammar.directive_of 0 0 (kind_of directive)) directive result
        out.old.items out.new.items }
{
    match directive {
        Directive::Do(job) => put_job(out, job),
        Directive::Fresh { frame, page } => put_row(out, 0, frame, page),
        Directive::IssueIn { slot, page } => put_row(out, slot, 0, page),
        Directive::FinishIn { slot, frame } => put_row(out, slot, frame, 0),
        Directive::IssueOut { slot, frame, page } => put_row(out, slot, frame, page),
        Directive::FinishOut { slot } => put_row(out, slot, 0, 0),
    }
}

// A directive but `Do`, behind its code.
fn put_row(out: &mut Vec<u8>, slot: u16, frame: u16, page: u32) -> Result<(), Memory>
    ensures { Adds (grammar.row true true true) (record { slot = slot; frame = frame; page = page }) result
        out.old.items out.new.items }
{
    put_u8(out, 0)?;
    put_u16(out, slot)?;
    put_u16(out, frame)?;
    put_u16(out, 0)?;
    put_u32(out, page)?;
    put_u32(out, 0)?;
    put_u32(out, 0)?;
    Ok(())
}

// An instruction behind its opcode.
fn put_job(out: &mut Vec<u8>, job: Job) -> Result<(), Memory>
    ensures { Adds (grammar.job 0 0 job.op) job result
        out.old.items out.new.items }
{
    put_u8(out, job.width)?;
    if is_const(job.op) {
        put_constant(out, job)
    } else {
        put_instruction(out, job)
    }
}

// `Const` behind its width.
fn put_constant(out: &mut Vec<u8>, job: Job) -> Result<(), Memory>
    ensures { Adds (grammar.constant job.width) job result
        out.old.items out.new.items }
{
    put_u16(out, 0)?;
    put_spot(out, job.out)?;
    put_u64(out, job.imm)?;
    put_spot(out, job.args[2])?;
    Ok(())
}

// An instruction but `Const`, behind its width.
fn put_instruction(out: &mut Vec<u8>, job: Job) -> Result<(), Memory>
    ensures { Adds (grammar.instruction 0 0 job.op job.width) job result
        out.old.items out.new.items }
{
    out.extend_from_slice(&job.imm.to_be_bytes()[6..])?;
    put_spot(out, job.out)?;
    put_spot(out, job.args[0])?;
    put_spot(out, job.args[1])?;
    put_spot(out, job.args[2])?;
    Ok(())
}

// Frame and offset.
fn put_spot(out: &mut Vec<u8>, spot: Spot) -> Result<(), Memory>
    ensures { Adds (grammar.spot true) spot result
        out.old.items out.new.items }
{
    put_u16(out, spot.frame)?;
    put_u16(out, spot.offset)?;
    Ok(())
}
