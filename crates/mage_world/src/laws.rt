// What is done in a world is done in the core.
ghost use Rattle.std.specs.Prelude.{◌≡◌, ℕ, List, length};
ghost use Rattle.mage_instr.specs.declared.directive.MemProgram.{MemProgram};
ghost use Rattle.mage_network.specs.Network.{opening};
ghost use Rattle.mage_network.specs.Waiting as waiting;
ghost use Rattle.mage_network.specs.Slots.{over_slots};
ghost use Rattle.mage_steps.specs.Core.{engine_of, core_at_first};
ghost use Rattle.mage_verify.specs.Parts.{parts_of};
ghost use Rattle.mage_world.specs.declared.event.Event.{Event};
ghost use Rattle.mage_world.specs.Cores.{CoreNetwork, core_what, Shows, IsTold, AreStates};
ghost use Rattle.mage_world.specs.Worlds.{Seen, opened, worker_in, what_in, IsDone};

use mage_driver::Driver;

/// A world that was made shows the core's opening; and where it shows a network of the core, and an event is done whose worker's
/// driver is told, it then shows the network after this event.
pub fn events_are_of_the_core<D: Driver>()
    ensures opens { (plan : MemProgram) (states : ℕ → D.rules.State) (drivers : List D) (capacity : ℕ)
        → length drivers ≡ length (parts_of plan) → AreStates D.tells drivers states
        → Shows D.rules plan states (opened D.rules D.tells (parts_of plan) drivers capacity)
        (opening (core_at_first D.rules plan states)) }
    ensures done { (plan : MemProgram) (states : ℕ → D.rules.State) (old new : Seen D.rules.State)
        (event : Event) (network : CoreNetwork D.rules plan)
        → Shows D.rules plan states old network
        → IsDone D.rules old new (worker_in event) (what_in event) → IsTold old (worker_in event)
        → Shows D.rules plan states new (waiting.event (over_slots (engine_of D.rules plan))
        old.capacity (core_what (worker_in event) (what_in event)) network) }
{}
