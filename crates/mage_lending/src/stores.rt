// The stores that workers borrow of a desk.
ghost use Rattle.std.specs.Prelude.{◌≡◌, ◌≤◌, ◌<◌, ◌+◌, ◌++◌, ◌∷◌, ℕ, List, [], length, map, take, IsTrue, IfOk, OnOk, Contains, vec_capacity};
ghost use Rattle.std.specs.List.{All};
ghost use Rattle.mage_base.specs.Desk.{StoreId, FaultCounted, IsNoFault, IsNotTooLong, HandsStore, Lends};
ghost use Rattle.mage_lending.specs.Stores.{own_store, own_stores, after_shelf, told_on, AreBack, AreLent, IsLent, LendsAll};

use mage_base::{Desk, DeskError};
use std::alloc::Global;

/// What a worker's store is to be like.
#[derive(Clone, Copy, Debug, PartialEq, Eq)]
pub struct StoreOrder {
    /// How many pages it is to have.
    pub pages: u32,
    /// How long each page is.
    pub page_bytes: u32,
}

// A shelf with the store of a worker, who has no other.
fn lend_shelf<D: Desk>(
    alloc: Global,
    desk: &mut D,
    worker: u16,
    order: StoreOrder,
) -> Result<Vec<D::Pages>, DeskError>
    ensures store { IfOk result (λ shelf. IsLent (D.tells desk.old) order
        (map D.Pages.tells shelf.items)) }
    ensures short { IsNotTooLong result }
    ensures cause { FaultCounted (D.tells desk.old).faults (D.tells desk.new).faults result }
    ensures steady { IsTrue (D.tells desk.old).steady → IsNoFault result }
    ensures rest { Lends (D.tells desk.old) (D.tells desk.new) (own_store worker) result }
{
    let Ok(mut shelf) = Vec::with_capacity(alloc, 1) else {
        return Err(DeskError::Memory);
    };
    let store = desk.store(alloc, worker, 0, order.pages, order.page_bytes)?;
    shelf.push_reserved(store);
    Ok(shelf)
}

// Asks for the stores in the order of the workers, into room for all of them. With any answer but Ok the first of them are
// there.
fn lend_shelves<D: Desk>(
    alloc: Global,
    desk: &mut D,
    orders: &[StoreOrder],
    stores: &mut Vec<Vec<D::Pages>>,
) -> Result<(), DeskError>
    requires none { stores.old.items ≡ [] }
    requires room { length orders.now ≤ vec_capacity stores.old }
    requires few { length orders.now ≤ 65535 }
    ensures some { length stores.new.items ≤ length orders.now }
    ensures all { OnOk result (length stores.new.items ≡ length orders.now) }
    ensures lent { AreLent (D.tells desk.old) (take (length stores.new.items) orders.now)
        (told_on D.Pages.tells stores.new.items) }
    ensures short { IsNotTooLong result }
    ensures cause { FaultCounted (D.tells desk.old).faults (D.tells desk.new).faults result }
    ensures steady { IsTrue (D.tells desk.old).steady → IsNoFault result }
    ensures rest { D.tells desk.new ≡ record (D.tells desk.old) {
      lent = (D.tells desk.old).lent ++ own_stores 0 (length stores.new.items);
      faults = (D.tells desk.new).faults;
    } }
{
    for (worker, order) in orders.iter().enumerate() {
        let shelf = lend_shelf(alloc, desk, worker as u16, *order)?;
        stores.push_reserved(shelf);
    }
    Ok(())
}

/// Borrows a store for each worker, in the order of the workers, and lays it on a shelf of its own.
///
/// `Fault` where the desk failed, and `Memory` where there is none for the stores; the stores that were lent by then are
/// given back, in their order. Of other answers than these nothing is said.
pub fn lend_stores<D: Desk>(
    alloc: Global,
    desk: &mut D,
    orders: &[StoreOrder],
) -> Result<Vec<Vec<D::Pages>>, DeskError>
    requires { length orders.now ≤ 65535 }
    ensures count { IfOk result (λ stores. length stores.items ≡ length orders.now) }
    ensures one { IfOk result (λ stores. All (λ shelf. length shelf.items ≡ 1) stores.items) }
    ensures stores { IfOk result (λ stores. AreLent (D.tells desk.old) orders.now
        (told_on D.Pages.tells stores.items)) }
    ensures short { IsNotTooLong result }
    ensures cause { FaultCounted (D.tells desk.old).faults (D.tells desk.new).faults result }
    ensures steady { IsTrue (D.tells desk.old).steady → IsNoFault result }
    ensures rest { LendsAll (D.tells desk.old) (D.tells desk.new) (length orders.now) result }
{
    let Ok(mut stores) = Vec::with_capacity(alloc, orders.len()) else {
        return Err(DeskError::Memory);
    };
    match lend_shelves(alloc, desk, orders, &mut stores) {
        Ok(()) => Ok(stores),
        Err(error) => {
            give_stores_back(desk, stores);
            Err(error)
        }
    }
}

// Gives back the store on the shelf of a worker.
fn give_shelf<D: Desk>(desk: &mut D, worker: u16, shelf: Vec<D::Pages>)
    requires one { length shelf.items ≡ 1 }
    requires lent { Contains (D.tells desk.old).lent (own_store worker) }
    ensures { D.tells desk.new
        ≡ after_shelf (D.tells desk.old) worker (map D.Pages.tells shelf.items) }
{
    let mut shelf = shelf;
    if let Some(store) = shelf.pop() {
        desk.give_store(worker, 0, store);
    }
}

/// Gives the workers' stores back, one from each shelf, in the order of the workers.
///
/// The desk has lent them after all others. What it then tells of each worker is what it told, and what the worker's store
/// tells too; of other workers, and of all else, it tells what it told.
pub fn give_stores_back<D: Desk>(desk: &mut D, stores: Vec<Vec<D::Pages>>)
    requires few { length stores.items ≤ 65535 }
    requires one { All (λ shelf. length shelf.items ≡ 1) stores.items }
    requires lent { (earlier : List StoreId)
        × ((D.tells desk.old).lent ≡ earlier ++ own_stores 0 (length stores.items)) }
    ensures { (earlier : List StoreId)
        → (D.tells desk.old).lent ≡ earlier ++ own_stores 0 (length stores.items)
        → AreBack earlier (D.tells desk.old) (D.tells desk.new)
        (told_on D.Pages.tells stores.items) }
{
    let mut worker = 0u16;
    for shelf in stores {
        give_shelf(desk, worker, shelf);
        worker += 1;
    }
}
