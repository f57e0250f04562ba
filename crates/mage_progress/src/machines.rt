// What machines over queues are worth to progress.
ghost use Rattle.std.specs.Prelude.{◌≡◌, ◌≢◌, ◌<◌, ◌⊎◌, ℕ, List, length, Some, Result, slice_get};
ghost use Rattle.mage_instr.specs.declared.fault.MachineFault.{MachineFault};
ghost use Rattle.mage_driver.specs.Calls.{Told};
ghost use Rattle.mage_driver.specs.declared.standing.Standing.TheVariants as standing;
ghost use Rattle.mage_link.specs.Links.{LinkTold, after_wait};
ghost use Rattle.mage_link.specs.Queues.{QueueState, queue_told};
ghost use Rattle.mage_port.specs.Port.{PortTold};
ghost use Rattle.mage_verify.specs.Parts.{WorkerPart};
ghost use Rattle.mage_verify.specs.Runs.{AreVerified};
ghost use Rattle.mage_engine.specs.declared.turn.Kind.{Kind};
ghost use Rattle.mage_engine.specs.declared.turn.Turn.{Turn};
ghost use Rattle.mage_engine.specs.declared.turn.Why.TheVariants as why;
ghost use Rattle.mage_engine.specs.Ready.{opened};
ghost use Rattle.mage_engine.specs.Seen.{Seen, directive_at, IsEnded};
ghost use Rattle.mage_engine.specs.Steps.{IsMove, IsWait, Steps};
ghost use Rattle.mage_progress.specs.Stands.{Stand, at_first, next_in, HasEnded, AreSame, GoesOn, Waits};
ghost use Rattle.mage_progress.specs.Machines.{stand_of, lying};

use mage_driver::Driver;

/// Machines of the parts of a memory program without a fault, over queues on one thread. One that was made stands where nothing is
/// done. One that moved made a step (`moved`); one that finds its link full or empty waits there (`full`, `empty`); one has ended
/// just where it stands at its end (`ended`, `done`). Over a port that counts no waits, as a serial one, none waits for a slot
/// (`slot`). A step keeps the capacity, and one that doesn't move changes no link (`room`, `stays`).
pub fn machines_go_on<D: Driver>()
    ensures opened { (part : WorkerPart) (driver : Told D.rules.State) (port : PortTold)
        → driver.standing ≡ standing.Running
        → stand_of (opened D.rules part driver port) ≡ at_first }
    ensures next { (parts : List WorkerPart) (worker : ℕ) (stands : ℕ → Stand)
        (machine : Seen D.rules.State) → slice_get parts worker ≡ Some machine.part
        → stands worker ≡ stand_of machine → next_in parts stands worker ≡ directive_at machine }
    ensures moved { (parts : List WorkerPart) (worker : ℕ) (stands later : ℕ → Stand)
        (old new : Seen D.rules.State) (before after : QueueState) (moved : Kind)
        → AreVerified parts → slice_get parts worker ≡ Some old.part
        → IsMove D.rules old new (queue_told before) (queue_told after) moved
        → (IsEnded old → ⊥) → stands worker ≡ stand_of old → later worker ≡ stand_of new
        → ((other : ℕ) → other < length parts → worker ≢ other → later other ≡ stands other)
        → GoesOn parts worker stands (lying before) later (lying after) }
    ensures full { (parts : List WorkerPart) (worker : ℕ) (old new : Seen D.rules.State)
        (before after : QueueState) (to : ℕ) → AreVerified parts
        → slice_get parts worker ≡ Some old.part
        → IsWait D.rules old new (queue_told before) (queue_told after) (why.Full to)
        → Waits (directive_at old) before.capacity worker (lying before) }
    ensures empty { (parts : List WorkerPart) (worker : ℕ) (old new : Seen D.rules.State)
        (before after : QueueState) (from : ℕ) → AreVerified parts
        → slice_get parts worker ≡ Some old.part
        → IsWait D.rules old new (queue_told before) (queue_told after) (why.Empty from)
        → Waits (directive_at old) before.capacity worker (lying before) }
    ensures slot { (old new : Seen D.rules.State) (before after : LinkTold) (slot : ℕ)
        → IsWait D.rules old new before after (why.Slot slot)
        → old.port.waits ≡ 0 → new.port.waits ≡ 0 → ⊥ }
    ensures ended { (machine : Seen D.rules.State) → IsEnded machine
        → HasEnded (directive_at machine) (stand_of machine) }
    ensures done { (machine : Seen D.rules.State)
        → HasEnded (directive_at machine) (stand_of machine) → IsEnded machine }
    ensures room { (old new : Seen D.rules.State) (before after : QueueState)
        (answer : Result Turn MachineFault)
        → Steps D.rules old new (queue_told before) (queue_told after) answer
        → after.capacity ≡ before.capacity }
    ensures stays { (before after : QueueState)
        → (queue_told after ≡ queue_told before)
        ⊎ (queue_told after ≡ after_wait (queue_told before))
        → AreSame (lying before) (lying after) }
{}
