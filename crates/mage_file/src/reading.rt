// Reading a file.
ghost use Rattle.std.specs.Prelude.{◌≡◌, ◌≤◌, ◌+◌, ◌*◌, ◌&&◌, nat_le, length, codes, Ok, IfOk};
ghost use Rattle.std.specs.Int.{w32};
ghost use Rattle.mage_instr.specs.Limits.{most_wires};
ghost use Rattle.mage_file.specs.declared.fault.FileFault.TheVariants as faults;
ghost use Rattle.mage_file.specs.Rules.{is_page, is_buffer};
ghost use Rattle.mage_file.specs.Formats.{Gives, Reads, rest_of, after, field, text, listed};
ghost use Rattle.mage_file.specs.Laws.{IsFileOf, IsFirstFileOf};
ghost use Rattle.mage_file.specs.Grammar as grammar;
ghost use Rattle.mage_file.specs.Grammar.{digits, head, limits, section, file, most_in, read_in, read_of, read_first_of};

use crate::directives::section;
use crate::fault::FileFault;
use crate::left::Left;
use crate::version::Version;
use mage_instr::{Limits, MOST_WORKERS, MemProgram};
use sqlite_items::Items;
use std::alloc::Global;

// The most bytes of a file.
const MOST_BYTES: usize = 1_073_741_824;

// The most bytes of a file of the first version. The second has four bytes more for each worker.
const MOST_FIRST_BYTES: usize = 1_073_741_760;

// The wires that a page may have.
const PAGES: [u32; 11] = [
    64, 128, 256, 512, 1024, 2048, 4096, 8192, 16_384, 32_768, 65_536,
];

// The most wires that frames and buffer hold together.
const MOST_WIRES: u64 = 4_194_304;

/// The memory program that the bytes of a file spell: a program whose fields are in their ranges, and no byte more.
///
/// The fault is the first in the order of the bytes. A field that isn't whole is `Short` at the length of the input.
/// A wrong first field is `Magic`, a wrong second one `Version`, and any other field that breaks its rule is `Field`
/// at its first byte. Bytes behind the last directive are `Extra` at the first of them. `Long` comes before all
/// others, where there are more than 1,073,741,824 bytes.
pub fn read(alloc: Global, bytes: &[u8]) -> Result<MemProgram, FileFault>
    ensures exact { Gives (λ program. program) result (read_of bytes.now) }
    ensures found { IfOk result (λ program. IsFileOf program bytes.now) }
{
    program_of(alloc, bytes, Version::Second)
}

/// The memory program that the bytes of a file of the first version spell: a program whose fields are in their ranges, and
/// no byte more. The store of each worker has one page more than the greatest that its transfers name, or none where it
/// has no transfer.
///
/// The faults are those of `read`, but for two: the second field has to be `01`, so that a file that `read` accepts is
/// `Version`, and `Long` comes where there are more than 1,073,741,760 bytes. So the program's own file isn't too long.
pub fn read_first(alloc: Global, bytes: &[u8]) -> Result<MemProgram, FileFault>
    ensures exact { Gives (λ program. program) result (read_first_of bytes.now) }
    ensures found { IfOk result (λ program. IsFirstFileOf program bytes.now) }
{
    program_of(alloc, bytes, Version::First)
}

// The program or the first fault.
#[tactic(auto, unfolding(crate::specs::Grammar::read_in))]
fn program_of(alloc: Global, bytes: &[u8], version: Version) -> Result<MemProgram, FileFault>
    ensures { Gives (λ program. program) result (read_in version bytes.now) }
{
    if most_bytes(version) < bytes.len() {
        return Err(FileFault::Long);
    }
    let total = bytes.len() as u64;
    let (program, left) = file(alloc, Left { bytes, total }, version)?;
    left.end()?;
    Ok(program)
}

// The most bytes of a file of this version.
fn most_bytes(version: Version) -> usize
    ensures { result ≡ most_in version }
{
    match version {
        Version::First => MOST_FIRST_BYTES,
        Version::Second => MOST_BYTES,
    }
}

// The fields of a file.
#[tactic(auto, unfolding(crate::specs::Formats::chain, crate::specs::Formats::done, crate::specs::Grammar::file))]
fn file(
    alloc: Global,
    left: Left<'_>,
    version: Version,
) -> Result<(MemProgram, Left<'_>), FileFault>
    ensures { Reads (file version) result left.entry }
{
    let (workers, left) = head(left, version)?;
    let (limits, left) = limits(left)?;
    sections(alloc, left, version, workers, limits)
}

// How many workers there are.
#[tactic(auto, unfolding(crate::specs::Formats::chain, crate::specs::Formats::done, crate::specs::Grammar::head))]
fn head(left: Left<'_>, version: Version) -> Result<(u16, Left<'_>), FileFault>
    ensures { Reads (head version) result left.entry }
{
    let left = left.text(b"MAGEMP", FileFault::Magic)?;
    let left = digits(left, version)?;
    let (workers, left) = left.u16_within(1, MOST_WORKERS)?;
    let (_, left) = left.u16_within(0, 0)?;
    Ok((workers, left))
}

// The second field.
fn digits(left: Left<'_>, version: Version) -> Result<Left<'_>, FileFault>
    ensures { Gives (λ x. (tt, rest_of x)) result ((text (digits version) faults.Version).read (rest_of left.entry)) }
{
    match version {
        Version::First => left.text(b"01", FileFault::Version),
        Version::Second => left.text(b"02", FileFault::Version),
    }
}

// The limits.
#[tactic(auto, unfolding(crate::specs::Formats::chain, crate::specs::Formats::done, crate::specs::Grammar::limits))]
fn limits(left: Left<'_>) -> Result<(Limits, Left<'_>), FileFault>
    ensures { Reads limits result left.entry }
{
    let (page, left) = page(left)?;
    let (frames, left) = left.u32_within(1, 65_536)?;
    let (buffer, left) = buffer(left, page, frames)?;
    let (ahead, left) = left.u32_within(0, 1_000_000)?;
    let limits = Limits {
        page,
        frames,
        buffer,
        ahead,
    };
    Ok((limits, left))
}

// The wires of a page.
#[tactic(auto, unfolding(crate::specs::Formats::field))]
fn page(left: Left<'_>) -> Result<(u32, Left<'_>), FileFault>
    ensures { Reads (field w32 is_page) result left.entry }
{
    let (page, after) = left.take_u32()?;
    if is_page(page) {
        Ok((page, after))
    } else {
        Err(FileFault::Field { at: left.place() })
    }
}

// A power of two from 64 to 65,536.
fn is_page(page: u32) -> bool
    ensures { result ≡ is_page page }
{
    PAGES.contains(&page)
}

// The slots of the buffer.
#[tactic(auto, unfolding(crate::specs::Formats::field))]
fn buffer(left: Left<'_>, page: u32, frames: u32) -> Result<(u16, Left<'_>), FileFault>
    ensures { Reads (field w32 (is_buffer page frames)) result left.entry }
{
    let (buffer, after) = left.take_u32()?;
    if buffer <= 4096 && are_few_wires(page, frames, buffer) {
        Ok((buffer as u16, after))
    } else {
        Err(FileFault::Field { at: left.place() })
    }
}

// Whether frames and buffer hold few enough wires together.
fn are_few_wires(page: u32, frames: u32, buffer: u32) -> bool
    ensures { result ≡ nat_le ((frames + buffer) * page) most_wires }
{
    let places = u64::from(frames) + u64::from(buffer);
    places.saturating_mul(u64::from(page)) <= MOST_WIRES
}

// The sections of all workers, which make a program with the limits.
fn sections(
    alloc: Global,
    left: Left<'_>,
    version: Version,
    workers: u16,
    limits: Limits,
) -> Result<(MemProgram, Left<'_>), FileFault>
    ensures { Gives (λ x. (x.0, rest_of x.1)) result
        (after ((listed workers (section version workers)).read (rest_of left.entry)) (λ sections rest. Ok (grammar.program_of limits sections, rest))) }
{
    let mut stores = Items::new(alloc);
    let mut lists = Items::new(alloc);
    let mut rest = left;
    for own in 0..workers {
        let (section, after) = section(alloc, rest, version, workers, own)?;
        stores.push(section.pages).map_err(|_| FileFault::Memory)?;
        lists
            .push(section.directives)
            .map_err(|_| FileFault::Memory)?;
        rest = after;
    }
    let program = MemProgram {
        limits,
        stores,
        workers: lists,
    };
    Ok((program, rest))
}
