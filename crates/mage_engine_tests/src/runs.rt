// A machine that is stepped.
ghost use Rattle.std.specs.Prelude.{◌≡◌, IfOk};
ghost use Rattle.mage_driver.specs.declared.standing.Standing.TheVariants as standing;
ghost use Rattle.mage_verify.specs.Parts.{WorkerPart};
ghost use Rattle.mage_engine.specs.Ready.{Serves, Connects};

use mage_base::Memory;
use mage_driver::Driver;
use mage_engine::{Machine, Turn};
use mage_instr::MachineFault;
use mage_link::LinkPort;
use mage_port::SwapPort;
use mage_verify::Part;
use std::alloc::Global;

/// What a step answers.
pub type Answer = Result<Turn, MachineFault>;

/// A machine over these. `Memory` where there is none for it.
pub fn made<D: Driver + Drop, P: SwapPort + Drop>(
    alloc: Global,
    part: Part,
    driver: D,
    port: P,
) -> Result<Machine<D, P>, Memory>
    requires running { (D.tells driver).standing ≡ standing.Running }
    requires port { Serves D.WIRE_BYTES (P.tells port) part }
    ensures { IfOk result (λ machine. machine.part ≡ part) }
{
    match Machine::make(alloc, part, driver, port) {
        Ok(machine) => Ok(machine),
        Err((_, _, _, memory)) => Err(memory),
    }
}

/// What so many steps of a machine answer.
pub fn stepped<D: Driver, P: SwapPort, L: LinkPort>(
    alloc: Global,
    machine: &mut Machine<D, P>,
    link: &mut L,
    count: u32,
) -> Result<Vec<Answer>, Memory>
    requires { Connects (L.tells link.old) machine.old.part }
    ensures part { machine.new.part ≡ machine.old.part }
    ensures links { (part : WorkerPart) → Connects (L.tells link.old) part
        → Connects (L.tells link.new) part }
{
    let mut answers = Vec::new(alloc);
    for _ in 0..count {
        answers.push(machine.step(link))?;
    }
    Ok(answers)
}

/// What two machines answer, each to so many steps, where they are stepped in turn.
pub fn in_turn<D: Driver, P: SwapPort, L: LinkPort>(
    alloc: Global,
    first: &mut Machine<D, P>,
    second: &mut Machine<D, P>,
    link: &mut L,
    count: u32,
) -> Result<(Vec<Answer>, Vec<Answer>), Memory>
    requires first { Connects (L.tells link.old) first.old.part }
    requires second { Connects (L.tells link.old) second.old.part }
{
    let mut ones = Vec::new(alloc);
    let mut others = Vec::new(alloc);
    for _ in 0..count {
        ones.push(first.step(link))?;
        others.push(second.step(link))?;
    }
    Ok((ones, others))
}
