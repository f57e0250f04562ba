// The line that is warned of a refusal.
ghost use Rattle.std.specs.Prelude.{◌≡◌, IfOk, IsOk, string_bytes};
ghost use Rattle.std.specs.Cow.{cow_str_bytes};
ghost use Rattle.mage_planner.specs.declared.refusal.Refusal.TheVariants as refusal;
ghost use Rattle.mage_instr.specs.declared.replaced.Tight.TheVariants as tight;
ghost use Rattle.mage_planner.specs.Lines.{kind_name, party_name, line_of};

use crate::Refusal;
use crate::program_line::{check_line, program_line};
use crate::stream_line::{labels_line, stream_line};
use mage_base::{Damage, Memory};
use mage_instr::{Party, Tight};
use mage_lex::LangKind;
use std::alloc::{AllocError, Global};
use std::borrow::CowStr;

// The name of what can be wrong with a source.
fn kind_name(kind: LangKind) -> &'static str
    ensures { result.now ≡ kind_name kind }
{
    match kind {
        LangKind::BadByte => "BadByte",
        LangKind::BadNumber => "BadNumber",
        LangKind::TooLong => "TooLong",
        LangKind::Syntax => "Syntax",
        LangKind::TooDeep => "TooDeep",
        LangKind::UnknownName => "UnknownName",
        LangKind::Duplicate => "Duplicate",
        LangKind::WidthDiffers => "WidthDiffers",
        LangKind::WorkerDiffers => "WorkerDiffers",
        LangKind::IndexOut => "IndexOut",
        LangKind::ConstFault => "ConstFault",
        LangKind::BadWidth => "BadWidth",
        LangKind::BadWorker => "BadWorker",
    }
}

fn party_name(party: Party) -> &'static str
    ensures { result.now ≡ party_name party }
{
    match party {
        Party::Garbler => "garbler",
        Party::Evaluator => "evaluator",
    }
}

fn too_long_line(party: Party) -> &'static str
    ensures { result.now ≡ line_of (refusal.InputTooLong party) }
{
    match party {
        Party::Garbler => "mage: input garbler too long\n",
        Party::Evaluator => "mage: input evaluator too long\n",
    }
}

// The line of an instruction that needs more pages than there are frames.
fn frames_line(
    alloc: Global,
    worker: u16,
    instr: u32,
    needs: u8,
    has: u32,
) -> Result<String, AllocError>
    ensures { IfOk result (λ text.
        string_bytes text ≡ line_of (refusal.Limits worker (tight.Frames instr needs has))) }
{
    format!(in alloc;
        "mage: limits: worker {worker} instruction {instr} needs {needs} pages, has {has} frames\n"
    )
}

// The line of an instruction that needs a slot of the buffer.
fn buffer_line(alloc: Global, worker: u16, instr: u32) -> Result<String, AllocError>
    ensures { IfOk result (λ text.
        string_bytes text ≡ line_of (refusal.Limits worker (tight.Buffer instr))) }
{
    format!(in alloc; "mage: limits: worker {worker} instruction {instr} needs a buffer slot\n")
}

// The line of an instruction whose result doesn't fit a page.
fn page_line(alloc: Global, worker: u16, instr: u32, class: u8) -> Result<String, AllocError>
    ensures { IfOk result (λ text.
        string_bytes text ≡ line_of (refusal.Limits worker (tight.Page instr class))) }
{
    format!(in alloc;
        "mage: limits: worker {worker} instruction {instr} needs a page of {class} wires\n"
    )
}

fn tight_line(alloc: Global, worker: u16, tight: Tight) -> Result<String, AllocError>
    ensures { IfOk result (λ text. string_bytes text ≡ line_of (refusal.Limits worker tight)) }
{
    match tight {
        Tight::Frames { instr, needs, has } => frames_line(alloc, worker, instr, needs, has),
        Tight::Buffer { instr } => buffer_line(alloc, worker, instr),
        Tight::Page { instr, class } => page_line(alloc, worker, instr, class),
    }
}

fn language_line(
    alloc: Global,
    kind: LangKind,
    line: u32,
    column: u32,
) -> Result<String, AllocError>
    ensures { IfOk result (λ text.
        string_bytes text ≡ line_of (refusal.Language kind line column)) }
{
    let kind = kind_name(kind);
    format!(in alloc; "mage: source {line}:{column}: {kind}\n")
}

fn input_line(alloc: Global, party: Party, line: u64) -> Result<String, AllocError>
    ensures { IfOk result (λ text. string_bytes text ≡ line_of (refusal.InputLine party line)) }
{
    let party = party_name(party);
    format!(in alloc; "mage: input {party} line {line}\n")
}

fn store_line(alloc: Global, worker: u16) -> Result<String, AllocError>
    ensures { IfOk result (λ text. string_bytes text ≡ line_of (refusal.Store worker)) }
{
    format!(in alloc; "mage: store fault: worker {worker}\n")
}

// The line of a damaged page, with both digests in hexadecimal digits.
fn damage_line(alloc: Global, worker: u16, damage: Damage) -> Result<String, AllocError>
    ensures { IfOk result (λ text. string_bytes text ≡ line_of (refusal.Damaged worker damage)) }
{
    let page = damage.page;
    let kept = hex::encode(alloc, damage.kept)?;
    let found = hex::encode(alloc, damage.found)?;
    format!(in alloc; "mage: damaged: worker {worker} page {page} kept {kept} found {found}\n")
}

/// The line that is warned of a refusal. A fault of the desk and want of memory have theirs without taking memory.
pub fn line_of(alloc: Global, refusal: Refusal) -> Result<CowStr<'static, Global>, Memory>
    ensures line { IfOk result (λ line. cow_str_bytes line ≡ line_of refusal) }
    ensures desk { refusal ≡ Refusal.Desk → IsOk result }
{
    let written = match refusal {
        Refusal::Words => return Ok(CowStr::Borrowed("mage: bad words\n")),
        Refusal::Desk => return Ok(CowStr::Borrowed("mage: desk fault\n")),
        Refusal::Memory => return Ok(CowStr::Borrowed("mage: no memory\n")),
        Refusal::InputSeed => return Ok(CowStr::Borrowed("mage: input seed\n")),
        Refusal::InputTooLong { party } => return Ok(CowStr::Borrowed(too_long_line(party))),
        Refusal::Language { kind, line, column } => language_line(alloc, kind, line, column)?,
        Refusal::Limits { worker, tight } => tight_line(alloc, worker, tight)?,
        Refusal::InputLine { party, line } => input_line(alloc, party, line)?,
        Refusal::MemoryProgram { fault } => return program_line(alloc, fault),
        Refusal::CheckNo { worker, directive } => check_line(alloc, worker, directive)?,
        Refusal::Store { worker } => store_line(alloc, worker)?,
        Refusal::Damaged { worker, damage } => damage_line(alloc, worker, damage)?,
        Refusal::InputLabels { worker } => labels_line(alloc, worker)?,
        Refusal::Stream { worker, fault } => stream_line(alloc, worker, fault)?,
    };
    Ok(CowStr::Owned(written))
}
