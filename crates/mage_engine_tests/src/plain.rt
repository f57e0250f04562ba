// Machines in plain over serial ports.
ghost use Rattle.std.specs.Prelude.{◌≡◌, IfOk};
ghost use Rattle.mage_driver.specs.declared.standing.Standing.TheVariants as standing;
ghost use Rattle.mage_verify.specs.Runs.{IsSafe};
ghost use Rattle.mage_engine.specs.Ready.{Serves};

use crate::{Answer, in_turn, linked, made, serial_for, stepped};
use mage_base::{MemStore, Memory};
use mage_engine::Machine;
use mage_plain::PlainDriver;
use mage_port::SwapPort;
use mage_store::SerialPort;
use mage_verify::Part;
use std::alloc::Global;

/// A machine in plain over a serial port.
pub type PlainMachine = Machine<PlainDriver, SerialPort<MemStore>>;

/// A machine for a part, where the garbler has these values, over a store of whose calls these fail.
pub fn plainly(
    alloc: Global,
    part: Part,
    values: &[u128],
    fails: &[u64],
) -> Result<PlainMachine, Memory>
    ensures { IfOk result (λ machine. IsSafe machine.part) }
{
    let _directives = part.directives();
    let port = serial_for(alloc, &part, fails)?;
    over_port(alloc, part, values, port)
}

// A driver with room for 8 outputs.
fn driver_of(alloc: Global, values: &[u128]) -> Result<PlainDriver, Memory>
    ensures { IfOk result (λ driver. driver.standing ≡ standing.Running) }
{
    let garbler = Vec::from_slice(alloc, values)?;
    PlainDriver::make(alloc, garbler, Vec::new(alloc), 8)
}

/// A machine in plain for a part over this port, where the garbler has these values.
pub fn over_port<P: SwapPort + Drop>(
    alloc: Global,
    part: Part,
    values: &[u128],
    port: P,
) -> Result<Machine<PlainDriver, P>, Memory>
    requires { Serves 1 (P.tells port) part }
    ensures { IfOk result (λ machine. IsSafe machine.part) }
{
    let _directives = part.directives();
    let driver = driver_of(alloc, values)?;
    made(alloc, part, driver, port)
}

/// What so many steps answer, and what the machine is afterwards.
pub fn answers_of<P: SwapPort + Drop>(
    alloc: Global,
    machine: Machine<PlainDriver, P>,
    count: u32,
) -> Result<Went<P>, Memory>
    requires { IsSafe machine.part }
{
    let mut machine = machine;
    let mut link = linked(alloc)?;
    let answers = stepped(alloc, &mut machine, &mut link, count)?;
    let (driver, port) = machine.close();
    Ok(Went {
        answers,
        driver,
        port,
    })
}

/// What a machine answered, and what it gave back.
#[derive(Drop)]
pub struct Went<P: SwapPort> {
    pub answers: Vec<Answer>,
    pub driver: PlainDriver,
    pub port: P,
}

/// What the receiver of two machines answers to three steps, then the sender to five, and then the receiver to 67 in turn with
/// it; and what the receiver puts out. A link has room for one wire.
pub fn hands_over(
    alloc: Global,
    sender: PlainMachine,
    receiver: PlainMachine,
) -> Result<Handed, Memory>
    requires sender { IsSafe sender.part }
    requires receiver { IsSafe receiver.part }
{
    let mut sender = sender;
    let mut receiver = receiver;
    let mut link = linked(alloc)?;
    let early = stepped(alloc, &mut receiver, &mut link, 3)?;
    let begun = stepped(alloc, &mut sender, &mut link, 5)?;
    let (_, late) = in_turn(alloc, &mut sender, &mut receiver, &mut link, 67)?;
    Ok(Handed {
        early,
        begun,
        late,
        outputs: outputs_of(alloc, receiver)?,
    })
}

/// What two machines answered that handed a value over.
#[derive(Debug, Drop)]
pub struct Handed {
    pub early: Vec<Answer>,
    pub begun: Vec<Answer>,
    pub late: Vec<Answer>,
    pub outputs: Vec<u128>,
}

// What a machine's driver put out.
fn outputs_of(alloc: Global, machine: PlainMachine) -> Result<Vec<u128>, Memory> {
    let (driver, _) = machine.close();
    Ok(Vec::from_slice(alloc, driver.outputs())?)
}
