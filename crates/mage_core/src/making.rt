// Machines for the workers.
ghost use Rattle.std.specs.Prelude.{reverse, ◌≡◌, ◌≤◌, ℕ, [], ◌∷◌, ◌++◌, length, map, take, IfOk, IfErr, IfSome, OnOk, slice_get, vec_capacity};
ghost use Rattle.std.specs.List.{All};
ghost use Rattle.mage_driver.specs.declared.standing.Standing.TheVariants as standing;
ghost use Rattle.mage_core.specs.Ports.{store_of};
ghost use Rattle.mage_core.specs.Made.{IsNew, IsEmptied, HasStoreOf, Hold, shelves};

use crate::port::port_for;
use mage_base::{Memory, Store};
use mage_driver::Driver;
use mage_engine::Machine;
use mage_store::{SealedPort, SerialPort};
use mage_verify::Part;
use std::alloc::Global;

// The machine of a worker, which takes its store from the shelf. With an error its driver comes back, and the store lies on
// the shelf again.
fn machine_for<D: Driver, S: Store>(
    alloc: Global,
    part: Part,
    driver: D,
    shelf: &mut Vec<S>,
) -> Result<Machine<D, SealedPort<SerialPort<S>>>, D>
    requires running { (D.tells driver).standing ≡ standing.Running }
    requires shelf { HasStoreOf D.WIRE_BYTES S.tells part shelf.old.items }
    ensures new { IfOk result (λ machine. IsNew D.rules D.tells S.tells machine) }
    ensures part { IfOk result (λ machine. machine.part ≡ part) }
    ensures driver { IfOk result (λ machine. machine.driver ≡ driver) }
    ensures store { IfOk result (λ machine. shelf.old.items ≡ store_of machine ∷ []) }
    ensures emptied { OnOk result (IsEmptied shelf.new) }
    ensures back { IfErr result (λ back. (back ≡ driver)
        × (shelf.new.items ≡ shelf.old.items)) }
{
    let _directives = part.directives();
    let page_bytes = part.limits().page * D::WIRE_BYTES;
    let Some(store) = shelf.pop() else {
        return Err(driver);
    };
    let port = match port_for(alloc, &part, page_bytes, store) {
        Ok(port) => port,
        Err(store) => {
            shelf.push_reserved(store);
            return Err(driver);
        }
    };
    match Machine::make(alloc, part, driver, port) {
        Ok(machine) => Ok(machine),
        Err((_, driver, port, _)) => {
            shelf.push_reserved(port.close().close());
            Err(driver)
        }
    }
}

// The machines of all workers, from the last to the first, in room that was taken beforehand. Each takes its driver from the
// end of the list, and its store from its shelf. With `Memory` some are made, and the other drivers and stores are left.
pub(crate) fn make_all<D: Driver, S: Store>(
    alloc: Global,
    mut parts: Vec<Part>,
    drivers: &mut Vec<D>,
    stores: &mut Vec<Vec<S>>,
    machines: &mut Vec<Machine<D, SealedPort<SerialPort<S>>>>,
) -> Result<(), Memory>
    requires none { machines.old.items ≡ [] }
    requires room { length parts.items ≤ vec_capacity machines.old }
    requires drivers { length drivers.old.items ≡ length parts.items }
    requires stores { length stores.old.items ≡ length parts.items }
    requires running { All (λ driver. (D.tells driver).standing ≡ standing.Running)
        drivers.old.items }
    requires suits { (w : ℕ) → IfSome (slice_get parts.items w)
        (λ part. IfSome (slice_get stores.old.items w)
        (λ shelf. HasStoreOf D.WIRE_BYTES S.tells part shelf.items)) }
    ensures hold { Hold drivers.new.items stores.new.items machines.new.items
        drivers.old.items (shelves stores.old.items) }
    ensures all { OnOk result (drivers.new.items ≡ []) }
    ensures parts { OnOk result
        (reverse (map (λ machine. machine.part) machines.new.items) ≡ parts.items) }
    ensures new { All (IsNew D.rules D.tells S.tells) machines.new.items }
    ensures capacity { vec_capacity drivers.new ≡ vec_capacity drivers.old }
{
    while let Some(part) = parts.pop() {
        let Some(driver) = drivers.pop() else {
            return Ok(());
        };
        match machine_for(alloc, part, driver, &mut stores[drivers.len()]) {
            Ok(machine) => machines.push_reserved(machine),
            Err(driver) => {
                drivers.push_reserved(driver);
                return Err(Memory);
            }
        }
    }
    Ok(())
}
