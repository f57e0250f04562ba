// Laws of machines.
ghost use Rattle.std.specs.Prelude.{◌≡◌, ℕ, List, IsTrue};
ghost use Rattle.mage_driver.specs.declared.standing.Standing.TheVariants as standing;
ghost use Rattle.mage_driver.specs.Calls.{Told};
ghost use Rattle.mage_link.specs.Links as links;
ghost use Rattle.mage_port.specs.Port.{PortTold, IsUnused};
ghost use Rattle.mage_verify.specs.Parts.{WorkerPart};
ghost use Rattle.mage_engine.specs.Ready.{opened};
ghost use Rattle.mage_link.specs.Links.{LinkTold};
ghost use Rattle.mage_network.specs.Reading.{Flying};
ghost use Rattle.mage_steps.specs.Engines.{Engine};
ghost use Rattle.mage_engine.specs.declared.turn.Kind.{Kind};
ghost use Rattle.mage_engine.specs.Seen.{Seen};
ghost use Rattle.mage_engine.specs.Steps.{IsMove, GoesAlong, first_worker};

use mage_driver::Driver;

/// A machine whose driver is told goes along the own run of its worker, with the answers that its port lists: one that was made
/// stands where the worker begins, and each step that moves leaves it on this run.
pub fn steps_go_along<D: Driver>()
    ensures starts { (part : WorkerPart) (driver : Told D.rules.State) (port : PortTold) (link : LinkTold)
        → driver.standing ≡ standing.Running → IsUnused port → links.IsUnused link
        → GoesAlong D.rules (first_worker D.rules part.limits.page driver.state)
        (opened D.rules part driver port) link }
    ensures moved { (start : Flying (Engine D.rules.State) (List ℕ)) (old new : Seen D.rules.State)
        (before after : LinkTold) (moved : Kind) → IsMove D.rules old new before after moved
        → IsTrue old.driver.told → GoesAlong D.rules start old before
        → GoesAlong D.rules start new after }
{}
