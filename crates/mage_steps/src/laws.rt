// The laws of the core.
ghost use Rattle.std.specs.Prelude.{◌≡◌, ◌⊎◌, ◌++◌, ℕ, List, None};
ghost use Rattle.mage_instr.specs.declared.directive.MemProgram.{MemProgram};
ghost use Rattle.mage_network.specs.Workers.{Stops, Deed};
ghost use Rattle.mage_network.specs.Laws.{IsCapacity, AreAlong, BeginsAlong};
ghost use Rattle.mage_network.specs.Pasts.{Leads};
ghost use Rattle.mage_network.specs.Together.{Joint};
ghost use Rattle.mage_network.specs.Waiting.{Event};
ghost use Rattle.mage_network.specs.Slots.{Service};
ghost use Rattle.mage_driver.specs.Calls.{Call};
ghost use Rattle.mage_network.specs.Answers.{AreAnswered, BeginsAnswered, answered};
ghost use Rattle.mage_network.specs.Reading.{answered_start, heard_in};
ghost use Rattle.mage_steps.specs.Core.{Core, engine_of, core_act, core_at_first, joint_after, joint_core, Flight, flight_at_first, core_hearing, answered_act, answered_after};
ghost use Rattle.mage_steps.specs.Orderly.{AreOrderly, IsThrough};
ghost use Rattle.mage_steps.specs.Laws.{core_after, SomeIsEnabled, EndsInJoint, IsWhole, BeginsJoint};

use mage_driver::Driver;

/// Of orderly directives: after every list of events, in whatever order workers have their turns and
/// others claim and serve their transfers, for every capacity, all that a worker said and sent
/// begins what it says and sends in the joint run, and is all of it once the worker is through.
pub fn every_event_list_begins_the_joint_run<D: Driver>()
    ensures { (plan : MemProgram) (drivers : ℕ → D.rules.State) → AreOrderly plan
        → (capacity : ℕ) (events : List (Event Service)) (turns : List Joint) (n : ℕ)
        → EndsInJoint D.rules plan drivers turns n
        → BeginsJoint D.rules plan n ((core_after D.rules plan drivers capacity events).workers n)
        (joint_after D.rules plan drivers turns n) }
{}

/// Of orderly directives whose joint run ends, for each capacity from 1 on: after every list of
/// events some event is enabled, or each worker is through and did all that it does in the joint
/// run.
pub fn no_core_is_stuck<D: Driver>()
    ensures { (plan : MemProgram) (drivers : ℕ → D.rules.State) → AreOrderly plan
        → (capacity : ℕ) (events : List (Event Service)) (turns : List Joint) → IsCapacity capacity
        → ((n : ℕ) → EndsInJoint D.rules plan drivers turns n)
        → SomeIsEnabled D.rules plan drivers capacity events
        ⊎ ((n : ℕ) → IsThrough D.rules plan n
        ((core_after D.rules plan drivers capacity events).workers n).state
        × IsWhole D.rules plan ((core_after D.rules plan drivers capacity events).workers n)
        (joint_after D.rules plan drivers turns n)) }
{}

/// Of orderly directives: no worker on its own, whatever wires it takes, stops before it is through.
/// And workers that went each some way on its own, over prefixes of what was sent to it, said and
/// sent what begins that of the joint run, and all of it once they stop.
pub fn own_runs_begin_the_joint_run<D: Driver>()
    ensures through { (plan : MemProgram) (drivers : ℕ → D.rules.State) → AreOrderly plan
        → (n : ℕ) (past : List (Deed (Call D.rules.State D.Wire) (List ℕ))) (worker : Core D.rules
        plan)
        → Leads (core_act D.rules plan n) (core_at_first D.rules plan drivers n) past worker
        → core_act D.rules plan n worker ≡ Stops → IsThrough D.rules plan n worker }
    ensures along { (plan : MemProgram) (drivers : ℕ → D.rules.State)
        (states : ℕ → Core D.rules plan) (said : ℕ → List (Call D.rules.State D.Wire))
        (taken sent : ℕ → ℕ → List (List ℕ))
        → AreAlong (core_act D.rules plan) (core_at_first D.rules plan drivers) states said taken
        sent
        → (turns : List Joint) (n : ℕ) → EndsInJoint D.rules plan drivers turns n
        → BeginsAlong (core_act D.rules plan n) (joint_after D.rules plan drivers turns n)
        (states n) (said n) (sent n) }
{}

/// The run in which at each turn the lowest worker goes on that can is such a joint run.
pub fn lowest_first_is_a_joint_run<D: Driver>()
    ensures { (plan : MemProgram) (drivers : ℕ → D.rules.State) (turns : ℕ)
        → (list : List Joint)
        × (joint_after D.rules plan drivers list ≡ joint_core D.rules plan drivers turns) }
{}

/// Of reads that are answered, right or wrong: workers that went each some way on its own, over
/// prefixes of what was sent to it and of the answers that are given to it, said and sent what begins
/// that of the joint run over these answers, and all of it once they stop. And a run over pages is the
/// run that is answered with what it reads, whatever answers are left.
pub fn answered_runs_begin_the_answered_joint_run<D: Driver>()
    ensures along { (plan : MemProgram) (drivers : ℕ → D.rules.State)
        (states : ℕ → Flight D.rules plan) (answers heard : ℕ → ℕ → List (List ℕ))
        (said : ℕ → List (Call D.rules.State D.Wire)) (taken sent : ℕ → ℕ → List (List ℕ))
        → AreAnswered (core_hearing D.rules plan) (flight_at_first D.rules plan drivers) states
        answers heard said taken sent
        → (turns : List Joint) (n : ℕ)
        → answered_act D.rules plan n (answered_after D.rules plan drivers answers turns n).state ≡
        Stops
        → BeginsAnswered (core_hearing D.rules plan n) (answered_after D.rules plan drivers answers
        turns n)
        (states n) (said n) (sent n) }
    ensures reads { (plan : MemProgram) (drivers : ℕ → D.rules.State) (n : ℕ)
        (past : List (Deed (Call D.rules.State D.Wire) (List ℕ))) (worker : Core D.rules plan)
        (leads : Leads (core_act D.rules plan n) (core_at_first D.rules plan drivers n) past worker)
        (rest : ℕ → List (List ℕ))
        → Leads (answered None (core_hearing D.rules plan n))
        (answered_start (core_at_first D.rules plan drivers n)
        (λ page. heard_in (engine_of D.rules plan) n (core_at_first D.rules plan drivers n) past
        worker leads page
        ++ rest page))
        past (answered_start worker rest) }
{}
