// What holds of all places.
ghost use Rattle.std.specs.Prelude.{◌≡◌, ℕ, List, length};
ghost use Rattle.mage_instr.specs.declared.instr.Instr.{Instr};
ghost use Rattle.mage_instr.specs.declared.instr.Place.{Place};
ghost use Rattle.mage_instr.specs.Sound.{IsSound};
ghost use Rattle.mage_place.specs.Places.{ArePlaces};
ghost use Rattle.mage_place.specs.Steps.{AreSteps};
ghost use Rattle.mage_place.specs.Placing.{places_of, trace_of};

/// A list of instructions and a page size determine the places.
pub fn places_are_determined()
    ensures { (instrs : List Instr) (page : ℕ) (xs ys : List Place)
        → ArePlaces instrs page xs → ArePlaces instrs page ys → xs ≡ ys }
{}

/// The places that `places_of` computes are those of the rule, whatever the instructions and the page size.
pub fn places_are_computed()
    ensures { (instrs : List Instr) (page : ℕ) → ArePlaces instrs page (places_of instrs page) }
{}

/// The steps that `trace_of` computes are those of the instructions, where the list can run and each instruction has a
/// place.
pub fn steps_are_computed()
    ensures { (instrs : List Instr) (places : List Place) → IsSound instrs
        → length places ≡ length instrs → AreSteps instrs places (trace_of instrs places) }
{}
