// The program of one worker, on pages of 1,024 wires, with two frames and a buffer of one slot.
ghost use Rattle.std.specs.Prelude.{◌<◌, ◌≤◌, length, IfOk};
ghost use Rattle.mage_directives.specs.Directives.{IsMemProgram};
ghost use Rattle.mage_instr.specs.Limits.{AreInRange};
ghost use Rattle.mage_verify.specs.Literals.{AreDirectives};

use crate::blocks::{ADDS, FIRST, LAST, MULS, STAYS};
use crate::failing::Trouble;
use crate::task::Name;
use mage_instr::{Directive, Limits, MemProgram};
use mage_verify::{Part, verify};
use sqlite_items::Items;
use std::alloc::Global;

const MOST: usize = 100_000_000;

fn limits() -> Limits
    ensures { AreInRange result }
{
    Limits {
        page: 1024,
        frames: 2,
        buffer: 1,
        ahead: 0,
    }
}

/// The part of the program with so many blocks of instructions of this name.
pub fn part_of(alloc: Global, name: Name, blocks: u32) -> Result<Part, Trouble> {
    let plan = program(alloc, named(alloc, name, blocks)?)?;
    let verified = verify(alloc, plan).map_err(|_| Trouble::Program)?;
    verified.parts().pop().ok_or(Trouble::Program)
}

// The directives of the program with so many blocks of instructions of this name.
fn named(alloc: Global, name: Name, blocks: u32) -> Result<Items<Directive>, Trouble>
    ensures fields { IfOk result (λ directives. AreDirectives 1 0 directives) }
{
    match name {
        Name::Add => directives(alloc, &ADDS, blocks),
        Name::Mul => directives(alloc, &MULS, blocks),
        Name::Stay => directives(alloc, &STAYS, blocks),
    }
}

// So many of these blocks, behind the first directives and in front of the last.
fn directives(alloc: Global, block: &[Directive], blocks: u32) -> Result<Items<Directive>, Trouble>
    requires { AreDirectives 1 0 block.now }
    ensures fields { IfOk result (λ directives. AreDirectives 1 0 directives) }
{
    let mut directives = Vec::from_slice(alloc, &FIRST)?;
    for _turn in 0..blocks {
        directives.extend_from_slice(block)?;
    }
    directives.extend_from_slice(&LAST)?;
    Ok(Items::from_vec(directives))
}

fn program(alloc: Global, directives: Items<Directive>) -> Result<MemProgram, Trouble>
    requires { AreDirectives 1 0 directives }
    ensures { IfOk result IsMemProgram }
{
    if directives.len() > MOST {
        return Err(Trouble::Program);
    }
    let mut stores = Items::new(alloc);
    stores.push(1)?;
    let mut workers = Items::new(alloc);
    workers.push(directives)?;
    Ok(MemProgram {
        limits: limits(),
        stores,
        workers,
    })
}
