// Transfers that are claimed and served.
ghost use Rattle.mage_network.specs.Slots as net;
ghost use Rattle.mage_world.specs.Seats.{Stands, seat_of, state_of};
ghost use Rattle.mage_world.specs.Worlds.{Served};

use crate::event::ApplyError;
use crate::slot::{claim, serve};
use crate::worker::Worker;
use mage_driver::Driver;
use mage_verify::Part;

/// The transfer of a slot that is asked is claimed.
pub(crate) fn claim_slot<D: Driver>(
    _driver: &D,
    _part: &Part,
    worker: &mut Worker,
    slot: u16,
) -> Result<(), ApplyError>
    requires { Stands D.rules _part.now (D.tells _driver.now) worker.old }
    ensures stands { Stands D.rules _part.now (D.tells _driver.now) worker.new }
    ensures served { Served (net.Claims slot)
        (seat_of D.rules _part.now.limits.page (D.tells _driver.now) (state_of worker.old))
        (seat_of D.rules _part.now.limits.page (D.tells _driver.now) (state_of worker.new)) result }
{
    if worker.slots.len() <= usize::from(slot) {
        return Err(ApplyError::NotEnabled);
    }
    if claim(&mut worker.slots, slot) {
        Ok(())
    } else {
        Err(ApplyError::NotEnabled)
    }
}

/// The bytes of a slot's claimed transfer go over.
pub(crate) fn serve_slot<D: Driver>(
    _driver: &D,
    _part: &Part,
    worker: &mut Worker,
    slot: u16,
) -> Result<(), ApplyError>
    requires { Stands D.rules _part.now (D.tells _driver.now) worker.old }
    ensures stands { Stands D.rules _part.now (D.tells _driver.now) worker.new }
    ensures served { Served (net.Serves slot)
        (seat_of D.rules _part.now.limits.page (D.tells _driver.now) (state_of worker.old))
        (seat_of D.rules _part.now.limits.page (D.tells _driver.now) (state_of worker.new)) result }
{
    if worker.slots.len() <= usize::from(slot) {
        return Err(ApplyError::NotEnabled);
    }
    if serve(&mut worker.slots, slot, &mut worker.pages) {
        Ok(())
    } else {
        Err(ApplyError::NotEnabled)
    }
}
