// The lines of what is wrong with a memory program.
ghost use Rattle.std.specs.Prelude.{◌≡◌, ℕ, List, IfOk, string_bytes};
ghost use Rattle.std.specs.Cow.{cow_str_bytes};
ghost use Rattle.mage_planner.specs.declared.refusal.Refusal.TheVariants as refusal;
ghost use Rattle.mage_planner.specs.declared.refusal.ProgramFault.TheVariants as wrong;
ghost use Rattle.mage_planner.specs.Lines.{line_of};

use crate::ProgramFault;
use mage_base::Memory;
use std::alloc::{AllocError, Global};
use std::borrow::CowStr;

fn short_line(alloc: Global, at: u64) -> Result<String, AllocError>
    ensures { IfOk result (λ text.
        string_bytes text ≡ line_of (refusal.MemoryProgram (wrong.Short at))) }
{
    format!(in alloc; "mage: memory program: short at {at}\n")
}

fn field_line(alloc: Global, at: u64) -> Result<String, AllocError>
    ensures { IfOk result (λ text.
        string_bytes text ≡ line_of (refusal.MemoryProgram (wrong.Field at))) }
{
    format!(in alloc; "mage: memory program: bad field at {at}\n")
}

fn extra_line(alloc: Global, at: u64) -> Result<String, AllocError>
    ensures { IfOk result (λ text.
        string_bytes text ≡ line_of (refusal.MemoryProgram (wrong.Extra at))) }
{
    format!(in alloc; "mage: memory program: extra at {at}\n")
}

fn range_line(alloc: Global, worker: u16, directive: u32) -> Result<String, AllocError>
    ensures { IfOk result (λ text. string_bytes text
        ≡ line_of (refusal.MemoryProgram (wrong.Range worker directive))) }
{
    format!(in alloc; "mage: memory program: Range worker {worker} directive {directive}\n")
}

fn slot_line(alloc: Global, worker: u16, directive: u32) -> Result<String, AllocError>
    ensures { IfOk result (λ text. string_bytes text
        ≡ line_of (refusal.MemoryProgram (wrong.SlotState worker directive))) }
{
    format!(in alloc; "mage: memory program: SlotState worker {worker} directive {directive}\n")
}

fn page_line(alloc: Global, worker: u16, directive: u32) -> Result<String, AllocError>
    ensures { IfOk result (λ text. string_bytes text
        ≡ line_of (refusal.MemoryProgram (wrong.PageState worker directive))) }
{
    format!(in alloc; "mage: memory program: PageState worker {worker} directive {directive}\n")
}

fn width_line(alloc: Global, worker: u16, directive: u32) -> Result<String, AllocError>
    ensures { IfOk result (λ text. string_bytes text
        ≡ line_of (refusal.MemoryProgram (wrong.Width worker directive))) }
{
    format!(in alloc; "mage: memory program: Width worker {worker} directive {directive}\n")
}

fn links_line(alloc: Global, worker: u16, directive: u32) -> Result<String, AllocError>
    ensures { IfOk result (λ text. string_bytes text
        ≡ line_of (refusal.MemoryProgram (wrong.Links worker directive))) }
{
    format!(in alloc; "mage: memory program: Links worker {worker} directive {directive}\n")
}

// A line that was written.
fn owned(line: Result<String, AllocError>) -> Result<CowStr<'static, Global>, Memory>
    ensures { (bytes : List ℕ) → IfOk line (λ text. string_bytes text ≡ bytes)
        → IfOk result (λ line. cow_str_bytes line ≡ bytes) }
{
    match line {
        Ok(text) => Ok(CowStr::Owned(text)),
        Err(AllocError) => Err(Memory),
    }
}

/// The line of what is wrong with a memory program.
pub fn program_line(alloc: Global, fault: ProgramFault) -> Result<CowStr<'static, Global>, Memory>
    ensures { IfOk result (λ line. cow_str_bytes line ≡ line_of (refusal.MemoryProgram fault)) }
{
    match fault {
        ProgramFault::TooLong => Ok(CowStr::Borrowed("mage: memory program: too long\n")),
        ProgramFault::Magic => Ok(CowStr::Borrowed("mage: memory program: bad magic\n")),
        ProgramFault::Version => Ok(CowStr::Borrowed("mage: memory program: bad version\n")),
        ProgramFault::Short { at } => owned(short_line(alloc, at)),
        ProgramFault::Field { at } => owned(field_line(alloc, at)),
        ProgramFault::Extra { at } => owned(extra_line(alloc, at)),
        ProgramFault::Range { worker, directive } => owned(range_line(alloc, worker, directive)),
        ProgramFault::SlotState { worker, directive } => owned(slot_line(alloc, worker, directive)),
        ProgramFault::PageState { worker, directive } => owned(page_line(alloc, worker, directive)),
        ProgramFault::Width { worker, directive } => owned(width_line(alloc, worker, directive)),
        ProgramFault::Links { worker, directive } => owned(links_line(alloc, worker, directive)),
    }
}

/// The line of a memory program that doesn't carry the source's program.
pub fn check_line(alloc: Global, worker: u16, directive: u32) -> Result<String, AllocError>
    ensures { IfOk result (λ text. string_bytes text ≡ line_of (refusal.CheckNo worker directive)) }
{
    format!(in alloc; "mage: check: worker {worker} directive {directive}\n")
}
