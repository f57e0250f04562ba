// The end of machines.
ghost use Rattle.std.specs.Prelude.{reverse, ◌≡◌, ◌≤◌, ◌+◌, [], ◌∷◌, ◌++◌, length, map, take, drop, vec_capacity};
ghost use Rattle.std.specs.List.{All};
ghost use Rattle.mage_core.specs.Ports.{CameBy, store_of};
ghost use Rattle.mage_core.specs.Made.{IsEmptied, shelves};

use mage_base::Store;
use mage_driver::Driver;
use mage_engine::Machine;
use mage_store::{SealedPort, SerialPort};

// Takes the machines apart, from the last in the list, which is that of the lowest worker: its driver goes behind those in
// the list, and its store onto its shelf.
pub(crate) fn close_all<D: Driver, S: Store>(
    machines: &mut Vec<Machine<D, SealedPort<SerialPort<S>>>>,
    drivers: &mut Vec<D>,
    stores: &mut Vec<Vec<S>>,
)
    requires count { length stores.old.items
        ≡ length drivers.old.items + length machines.old.items }
    requires emptied { All IsEmptied (drop (length drivers.old.items) stores.old.items) }
    requires room { length drivers.old.items + length machines.old.items
        ≤ vec_capacity drivers.old }
    ensures drivers { drivers.new.items ≡ drivers.old.items
        ++ reverse (map (λ machine. machine.driver) machines.old.items) }
    ensures stores { shelves stores.new.items
        ≡ shelves (take (length drivers.old.items) stores.old.items)
        ++ reverse (map (λ machine. store_of machine ∷ []) machines.old.items) }
    ensures none { machines.new.items ≡ [] }
    ensures came { All (CameBy S.tells) machines.old.items }
{
    while let Some(machine) = machines.pop() {
        let (driver, port) = machine.close();
        stores[drivers.len()].push_reserved(port.close().close());
        drivers.push_reserved(driver);
    }
}
