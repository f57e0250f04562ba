// Reads whose answers are the pages as last written.
ghost use Rattle.std.specs.Prelude.{◌≡◌, ◌++◌, ℕ, List, [], Option, None};
ghost use Rattle.mage_network.specs.Workers.{Act, Stops, Deed};
ghost use Rattle.mage_network.specs.Pasts.{Leads, WentAlone};
ghost use Rattle.mage_network.specs.Together.{Joint, together};
ghost use Rattle.mage_network.specs.Slots.{Paged, Doing, Acts, at_once};
ghost use Rattle.mage_network.specs.Answers.{answered};
ghost use Rattle.mage_network.specs.Reading.{hearing, heard_in, answered_start};

/// A run over pages, whose transfers are served at once, is the run without pages that is answered
/// with what it reads; and so is the joint run, at each worker whose engine has stopped in the one
/// and that is done in the other.
pub fn reads_are_answers<Eng, L, W, B>()
    ensures along { (engine : ℕ → Eng → Doing Eng L W B) (n : ℕ) (start : Paged Eng B)
        (past : List (Deed L W)) (worker : Paged Eng B)
        (leads : Leads (at_once engine n) start past worker) (rest : ℕ → List B)
        → Leads (answered None (hearing engine n))
        (answered_start start
        (λ page. heard_in engine n start past worker leads page ++ rest page))
        past (answered_start worker rest) }
    ensures together { (past_end : Option B) (engine : ℕ → Eng → Doing Eng L W B)
        (starts : ℕ → Paged Eng B) (turns others : List Joint)
        (leads : (n : ℕ) → WentAlone (at_once engine n) (starts n)
        (together (at_once engine) starts turns n))
        (n : ℕ) → engine n (together (at_once engine) starts turns n).state.engine ≡ Acts Stops
        → answered past_end (hearing engine n)
        (together (λ m. answered past_end (hearing engine m))
        (λ m. answered_start (starts m) (heard_in engine m (starts m)
        (together (at_once engine) starts turns m).past
        (together (at_once engine) starts turns m).state (leads m)))
        others n).state ≡ Stops
        → (together (at_once engine) starts turns n).past
        ≡ (together (λ m. answered past_end (hearing engine m))
        (λ m. answered_start (starts m) (heard_in engine m (starts m)
        (together (at_once engine) starts turns m).past
        (together (at_once engine) starts turns m).state (leads m)))
        others n).past }
{}
