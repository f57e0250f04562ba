// The turns of machines.
ghost use Rattle.std.specs.Prelude.{◌≡◌, ◌≤◌, ◌<◌, length, map, reverse};
ghost use Rattle.std.specs.List.{All};
ghost use Rattle.mage_link.specs.Queues.{new_queues, queue_told};
ghost use Rattle.mage_link.specs.Links.{IsUnused};
ghost use Rattle.mage_verify.specs.Runs.{AreVerified};
ghost use Rattle.mage_core.specs.Made.{IsNew};
ghost use Rattle.mage_core.specs.Going.{start_of, EndsAs};
ghost use Rattle.mage_core.specs.Turns.{sights, run_fault, run_answer, AllConnect, StepsTo, TurnsTo};

use crate::RunFault;
use mage_base::Store;
use mage_driver::Driver;
use mage_engine::{Machine, Turn};
use mage_instr::MachineFault;
use mage_link::QueueLink;
use mage_store::{SealedPort, SerialPort};

// The fault of a run that a worker's machine answered.
fn fault_of(worker: u16, fault: MachineFault) -> RunFault
    ensures { result ≡ run_fault worker fault }
{
    match fault {
        MachineFault::Store => RunFault::Store { worker },
        MachineFault::Driver(fault) => RunFault::Driver { worker, fault },
        MachineFault::Damaged(damage) => RunFault::Damaged { worker, damage },
    }
}

// Whether a machine moved that answered this.
fn moved(worker: u16, answer: Result<Turn, MachineFault>) -> Result<bool, RunFault>
    ensures { result ≡ run_answer worker answer }
{
    match answer {
        Ok(Turn::Moved(_)) => Ok(true),
        Ok(Turn::Blocked(_)) => Ok(false),
        Ok(Turn::Ended) => Ok(false),
        Err(fault) => Err(fault_of(worker, fault)),
    }
}

// One step of one machine: whether it moved.
fn step<D: Driver, S: Store>(
    machines: &mut Vec<Machine<D, SealedPort<SerialPort<S>>>>,
    worker: u16,
    link: &mut QueueLink,
) -> Result<bool, RunFault>
    requires within { worker < length machines.old.items }
    requires connect { AllConnect link.old (sights D.tells S.tells machines.old.items) }
    ensures count { length machines.new.items ≡ length machines.old.items }
    ensures steps { StepsTo D.rules (sights D.tells S.tells machines.old.items)
        (sights D.tells S.tells machines.new.items) link.old link.new worker result }
{
    moved(worker, machines[worker as usize].step(link))
}

// One turn: the lowest worker that can go on does so. Whether there is one.
fn turn<D: Driver, S: Store>(
    machines: &mut Vec<Machine<D, SealedPort<SerialPort<S>>>>,
    link: &mut QueueLink,
) -> Result<bool, RunFault>
    requires few { length machines.old.items ≤ 16 }
    requires connect { AllConnect link.old (sights D.tells S.tells machines.old.items) }
    ensures count { length machines.new.items ≡ length machines.old.items }
    ensures turns { TurnsTo D.rules (sights D.tells S.tells machines.old.items)
        (sights D.tells S.tells machines.new.items) link.old link.new result }
{
    for worker in 0..machines.len() as u16 {
        if step(machines, worker, link)? {
            return Ok(true);
        }
    }
    Ok(false)
}

// All turns, until no worker can go on, or one is stopped.
pub(crate) fn run<D: Driver, S: Store>(
    machines: &mut Vec<Machine<D, SealedPort<SerialPort<S>>>>,
    link: &mut QueueLink,
) -> Option<RunFault>
    requires new { All (IsNew D.rules D.tells S.tells) machines.old.items }
    requires verified { AreVerified (map (λ machine. machine.part) machines.old.items) }
    requires links { link.old ≡ new_queues (length machines.old.items) 64 }
    requires unused { IsUnused (queue_told link.old) }
    requires few { length machines.old.items ≤ 16 }
    ensures count { length machines.new.items ≡ length machines.old.items }
    ensures ends { EndsAs D.rules (map (start_of D.tells S.tells) machines.old.items)
        (sights D.tells S.tells machines.new.items) link.new result }
{
    loop {
        match turn(machines, link) {
            Ok(true) => {}
            Ok(false) => return None,
            Err(fault) => return Some(fault),
        }
    }
}

// The same over machines that stand from the last worker to the first.
pub(crate) fn run_from_last<D: Driver, S: Store>(
    machines: &mut Vec<Machine<D, SealedPort<SerialPort<S>>>>,
    link: &mut QueueLink,
) -> Option<RunFault>
    requires new { All (IsNew D.rules D.tells S.tells) machines.old.items }
    requires verified { AreVerified
        (reverse (map (λ machine. machine.part) machines.old.items)) }
    requires links { link.old ≡ new_queues (length machines.old.items) 64 }
    requires unused { IsUnused (queue_told link.old) }
    requires few { length machines.old.items ≤ 16 }
    ensures count { length machines.new.items ≡ length machines.old.items }
    ensures ends { EndsAs D.rules (map (start_of D.tells S.tells) (reverse machines.old.items))
        (sights D.tells S.tells (reverse machines.new.items)) link.new result }
{
    machines.as_mut_slice().reverse();
    let fault = run(machines, link);
    machines.as_mut_slice().reverse();
    fault
}
