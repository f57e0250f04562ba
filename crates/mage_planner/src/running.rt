// A memory program is run over stores of the desk.
ghost use Rattle.std.specs.Prelude.{◌≡◌, ◌≤◌, ◌*◌, ℕ, All, length, map, IsTrue, IfOk, IfErr};
ghost use Rattle.mage_base.specs.Desk.{DeskTold};
ghost use Rattle.mage_lending.specs.Stores.{AreLent, told_on};
ghost use Rattle.mage_texts.specs.Lists.{lists_of};
ghost use Rattle.mage_texts.specs.OutputText.{text_of};
ghost use Rattle.mage_planner.specs.Answer.{StoresAreSound};
ghost use Rattle.mage_planner.specs.Outcome.{Done};
ghost use Rattle.mage_planner.specs.Ran.{orders_of, LendsSo, HasLent, EndsSo, IsUnbroken, RanSo};
ghost use Rattle.mage_planner.specs.Steps.{IsNoDeskFault};
ghost use Rattle.mage_planner.specs.Work.{CanBeRun, IsRunOf};

use crate::Refusal;
use crate::work::Running;
use mage_base::{Desk, DeskError};
use mage_core::RunFault;
use mage_lending::{StoreOrder, give_stores_back, lend_stores};
use mage_solo::{Ran, run_plain};
use mage_texts::output_text;
use mage_verify::Part;
use std::alloc::Global;

// The store that a part needs, where a wire takes so many bytes.
fn order_of(part: &Part, wire_bytes: u32) -> StoreOrder
    requires page { part.now.limits.page ≤ 65536 }
    requires few { wire_bytes ≤ 16 }
    ensures { result ≡ record {
      pages = part.now.pages;
      page_bytes = part.now.limits.page * wire_bytes;
    } }
{
    StoreOrder {
        pages: part.store_pages(),
        page_bytes: part.limits().page * wire_bytes,
    }
}

/// The stores that parts need, where a wire takes so many bytes.
pub fn orders_of(alloc: Global, parts: &[Part], wire_bytes: u32) -> Result<Vec<StoreOrder>, Refusal>
    requires pages { All (λ part. part.limits.page ≤ 65536) parts.now }
    requires few { wire_bytes ≤ 16 }
    ensures orders { IfOk result (λ orders. orders.items ≡ orders_of wire_bytes parts.now) }
    ensures memory { IfErr result (λ why. why ≡ Refusal.Memory) }
{
    let mut orders = Vec::new(alloc);
    for part in parts {
        orders
            .push(order_of(part, wire_bytes))
            .map_err(|_| Refusal::Memory)?;
    }
    Ok(orders)
}

/// The stores of all workers, each on a shelf of its own.
pub fn lend<D: Desk>(
    alloc: Global,
    desk: &mut D,
    orders: &[StoreOrder],
) -> Result<Vec<Vec<D::Pages>>, Refusal>
    requires few { length orders.now ≤ 65535 }
    ensures stores { IfOk result (λ stores. AreLent (D.tells desk.old) orders.now
        (told_on D.Pages.tells stores.items)) }
    ensures leaves { LendsSo (length orders.now) result (D.tells desk.old) (D.tells desk.new) }
    ensures steady { IsTrue (D.tells desk.old).steady → IsNoDeskFault result }
{
    match lend_stores(alloc, desk, orders) {
        Ok(stores) => Ok(stores),
        Err(DeskError::Memory) => Err(Refusal::Memory),
        Err(_) => Err(Refusal::Desk),
    }
}

// Runs a memory program over stores that were just lent, and gives them back in every case.
fn run_over<D: Desk>(
    alloc: Global,
    desk: &mut D,
    running: Running,
    stores: Vec<Vec<D::Pages>>,
) -> Result<Vec<Vec<u128>>, RunFault>
    requires can { CanBeRun running }
    requires lent { (before : DeskTold) × HasLent 1 before running.parts.items
        (told_on D.Pages.tells stores.items) (D.tells desk.old) }
    ensures ends { (done : Done) (before : DeskTold) → IsRunOf running done
        → HasLent 1 before running.parts.items (told_on D.Pages.tells stores.items)
        (D.tells desk.old) → EndsSo done result before (D.tells desk.new) }
    ensures sound { (before : DeskTold) → HasLent 1 before running.parts.items
        (told_on D.Pages.tells stores.items) (D.tells desk.old)
        → IsUnbroken result → StoresAreSound before (D.tells desk.new) }
    ensures steady { (before : DeskTold) → HasLent 1 before running.parts.items
        (told_on D.Pages.tells stores.items) (D.tells desk.old)
        → IsTrue before.steady → IsTrue before.stores_tell_pages → IsUnbroken result }
{
    let Running {
        parts,
        garbler,
        evaluator,
    } = running;
    let Ran { outcome, stores } = run_plain(alloc, parts, garbler, evaluator, stores);
    give_stores_back(desk, stores);
    outcome
}

/// The text of what was put out.
pub fn text_of(alloc: Global, outputs: &[Vec<u128>]) -> Result<Vec<u8>, Refusal>
    ensures text { IfOk result (λ text. text.items ≡ text_of (lists_of outputs.now)) }
    ensures memory { IfErr result (λ why. why ≡ Refusal.Memory) }
{
    output_text(alloc, outputs).map_err(|_| Refusal::Memory)
}

// The text of what was put out, or what stopped the run.
fn said(alloc: Global, outcome: Result<Vec<Vec<u128>>, RunFault>) -> Result<Vec<u8>, Refusal>
    ensures ran { (done : Done) (before after : DeskTold) → EndsSo done outcome before after
        → RanSo done result before after }
    ensures unbroken { IsUnbroken outcome → IsNoDeskFault result }
    ensures broken { IsNoDeskFault result → IsUnbroken outcome }
{
    match outcome {
        Ok(outputs) => text_of(alloc, &outputs),
        Err(RunFault::Store { worker }) => Err(Refusal::Store { worker }),
        Err(RunFault::Damaged { worker, damage }) => Err(Refusal::Damaged { worker, damage }),
        Err(
            RunFault::Driver {
                worker: _,
                fault: _,
            },
        ) => Err(Refusal::Memory),
        Err(RunFault::Memory) => Err(Refusal::Memory),
    }
}

/// Runs a memory program in plain, and gives the text of what was put out: asks for the stores of its workers, in their order, and
/// gives them back in every case.
pub fn run<D: Desk>(alloc: Global, desk: &mut D, running: Running) -> Result<Vec<u8>, Refusal>
    requires { CanBeRun running }
    ensures ran { (done : Done) → IsRunOf running done
        → RanSo done result (D.tells desk.old) (D.tells desk.new) }
    ensures steady { IsTrue (D.tells desk.old).steady
        → IsTrue (D.tells desk.old).stores_tell_pages → IsNoDeskFault result }
    ensures sound { IsNoDeskFault result → StoresAreSound (D.tells desk.old) (D.tells desk.new) }
{
    let orders = orders_of(alloc, &running.parts, 1)?;
    let stores = lend(alloc, desk, &orders)?;
    let outcome = run_over(alloc, desk, running, stores);
    said(alloc, outcome)
}
