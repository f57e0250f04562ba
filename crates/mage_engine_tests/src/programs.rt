// The parts of small memory programs.
ghost use Rattle.mage_directives.specs.Directives.{IsMemProgram};

use mage_base::Memory;
use mage_instr::{Directive, MemProgram};
use mage_verify::{Part, verify};
use std::alloc::Global;

// The parts of a program; none where it has a fault.
fn parts_of(alloc: Global, plan: MemProgram) -> Option<Vec<Part>>
    requires { IsMemProgram plan }
{
    match verify(alloc, plan) {
        Ok(verified) => Some(verified.parts()),
        Err(_) => None,
    }
}

/// The part of a program's last worker. `Memory` too where the directives have a fault.
pub fn part_of(alloc: Global, plan: MemProgram) -> Result<Part, Memory>
    requires { IsMemProgram plan }
{
    parts_of(alloc, plan)
        .and_then(|mut parts| parts.pop())
        .ok_or(Memory)
}

/// The parts of a program's last two workers. `Memory` too where the directives have a fault.
pub fn pair_of(alloc: Global, plan: MemProgram) -> Result<(Part, Part), Memory>
    requires { IsMemProgram plan }
{
    match parts_of(alloc, plan) {
        Some(mut parts) => match (parts.pop(), parts.pop()) {
            (Some(second), Some(first)) => Ok((first, second)),
            _ => Err(Memory),
        },
        None => Err(Memory),
    }
}

/// Whether the issue of a write at this place leaves its frame; none where no such directive stands there.
pub fn leaves_at(part: &Part, place: u32) -> Option<bool> {
    match part.directives().get(place as usize) {
        Some(Directive::IssueOut { .. }) => Some(part.leaves(place)),
        _ => None,
    }
}
