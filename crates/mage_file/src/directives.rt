// Reading directives.
ghost use Rattle.std.specs.Prelude.{◌≡◌, ◌≤◌, IfOk};
ghost use Rattle.mage_directives.specs.Directives.{most_pages};
ghost use Rattle.mage_file.specs.Stores.{store_above};
ghost use Rattle.mage_file.specs.Formats.{Gives, Reads, rest_of, listed};
ghost use Rattle.mage_file.specs.Grammar.{row, code, directive_of, directive, store, section};

use crate::fault::FileFault;
use crate::fields::{most_page, most_u16};
use crate::jobs::job;
use crate::kind::{Kind, Row};
use crate::kinds::with_code;
use crate::left::Left;
use crate::section::Section;
use crate::stores::pages_in;
use crate::version::Version;
use mage_instr::Directive;
use sqlite_items::Items;
use std::alloc::Global;

// The most pages of a store.
pub const MOST_PAGES: u32 = 2_000_000;

// A directive other than `Do` behind its code, with the fields that are there.
#[tactic(auto, unfolding(crate::specs::Formats::chain, crate::specs::Formats::done, crate::specs::Grammar::row))]
fn row(left: Left<'_>, slot: bool, frame: bool, page: bool) -> Result<(Row, Left<'_>), FileFault>
    ensures { Reads (row slot frame page) result left.entry }
{
    let (_, left) = left.u8_within(0, 0)?;
    let (slot, left) = left.u16_within(0, most_u16(slot))?;
    let (frame, left) = left.u16_within(0, most_u16(frame))?;
    let (_, left) = left.u16_within(0, 0)?;
    let (page, left) = left.u32_within(0, most_page(page))?;
    let (_, left) = left.u32_within(0, 0)?;
    let (_, left) = left.u32_within(0, 0)?;
    Ok((Row { slot, frame, page }, left))
}

// A directive of this kind, behind its code.
#[tactic(auto, unfolding(crate::specs::Formats::chain, crate::specs::Formats::done, crate::specs::Grammar::directive_of))]
fn directive_of(
    left: Left<'_>,
    workers: u16,
    own: u16,
    kind: Kind,
) -> Result<(Directive, Left<'_>), FileFault>
    ensures { Reads (directive_of workers own kind) result left.entry }
{
    match kind {
        Kind::Do(op) => {
            let (job, left) = job(left, workers, own, op)?;
            Ok((Directive::Do(job), left))
        }
        Kind::Fresh => {
            let (Row { frame, page, .. }, left) = row(left, false, true, true)?;
            Ok((Directive::Fresh { frame, page }, left))
        }
        Kind::IssueIn => {
            let (Row { slot, page, .. }, left) = row(left, true, false, true)?;
            Ok((Directive::IssueIn { slot, page }, left))
        }
        Kind::FinishIn => {
            let (Row { slot, frame, .. }, left) = row(left, true, true, false)?;
            Ok((Directive::FinishIn { slot, frame }, left))
        }
        Kind::IssueOut => {
            let (Row { slot, frame, page }, left) = row(left, true, true, true)?;
            Ok((Directive::IssueOut { slot, frame, page }, left))
        }
        Kind::FinishOut => {
            let (Row { slot, .. }, left) = row(left, true, false, false)?;
            Ok((Directive::FinishOut { slot }, left))
        }
    }
}

// What the next byte tells.
#[tactic(auto, unfolding(crate::specs::Grammar::code))]
fn kind_at(left: Left<'_>) -> Result<(Kind, Left<'_>), FileFault>
    ensures { Reads code result left.entry }
{
    let (code, after) = left.take_u8()?;
    match with_code(code) {
        Some(kind) => Ok((kind, after)),
        None => Err(FileFault::Field { at: left.place() }),
    }
}

// A directive of one of so many workers.
#[tactic(auto, unfolding(crate::specs::Formats::chain, crate::specs::Formats::done, crate::specs::Grammar::directive))]
fn directive(left: Left<'_>, workers: u16, own: u16) -> Result<(Directive, Left<'_>), FileFault>
    ensures { Reads (directive workers own) result left.entry }
{
    let (kind, left) = kind_at(left)?;
    directive_of(left, workers, own, kind)
}

// So many directives.
fn list_of(
    alloc: Global,
    left: Left<'_>,
    workers: u16,
    own: u16,
    count: u32,
) -> Result<(Items<Directive>, Left<'_>), FileFault>
    ensures { Reads (listed count (λ _. directive workers own)) result left.entry }
{
    let mut list = Items::new(alloc);
    let mut rest = left;
    for _ in 0..count {
        let (first, after) = directive(rest, workers, own)?;
        list.push(first).map_err(|_| FileFault::Memory)?;
        rest = after;
    }
    Ok((list, rest))
}

// So many directives from the front of what is left of an input of so many bytes. None of them names a page that is too
// great.
fn directives(
    alloc: Global,
    bytes: &[u8],
    total: u64,
    workers: u16,
    own: u16,
    count: u32,
) -> Result<(Items<Directive>, Left<'_>), FileFault>
    ensures exact { Gives (λ x. (x.0, rest_of x.1)) result ((listed count (λ _. directive workers own)).read (record { bytes = bytes.now; total = total })) }
    ensures small { IfOk result (λ x. store_above x.0 ≤ most_pages) }
{
    list_of(alloc, Left { bytes, total }, workers, own, count)
}

// What a file tells of the pages of a store.
#[tactic(auto, unfolding(crate::specs::Formats::done, crate::specs::Grammar::store))]
fn store(left: Left<'_>, version: Version) -> Result<(u32, Left<'_>), FileFault>
    ensures { Reads (store version) result left.entry }
{
    match version {
        Version::First => Ok((0, left)),
        Version::Second => left.u32_within(0, MOST_PAGES),
    }
}

// The part of one of so many workers: what is told of the pages of its store, how many directives it has, and these.
#[tactic(auto, unfolding(crate::specs::Formats::chain, crate::specs::Formats::done, crate::specs::Formats::number, crate::specs::Grammar::section))]
pub fn section(
    alloc: Global,
    left: Left<'_>,
    version: Version,
    workers: u16,
    own: u16,
) -> Result<(Section, Left<'_>), FileFault>
    ensures { Reads (section version workers own) result left.entry }
{
    let (told, left) = store(left, version)?;
    let (count, left) = left.take_u32()?;
    let (directives, left) = directives(alloc, left.bytes, left.total, workers, own, count)?;
    let pages = pages_in(version, told, directives.as_slice());
    Ok((Section { pages, directives }, left))
}
