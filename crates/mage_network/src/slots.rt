// Slots with transfers in flight, as an instance of the second law.
ghost use Rattle.std.specs.Prelude.{◌≡◌, ◌⊎◌, ℕ, List};
ghost use Rattle.mage_network.specs.Workers.{Act, Stops};
ghost use Rattle.mage_network.specs.Together.{Joint, together};
ghost use Rattle.mage_network.specs.Laws.{IsCapacity};
ghost use Rattle.mage_network.specs.Waiting.{Event, after_events, SomeCanHappen, Means, StandsAs, BeginsTied};
ghost use Rattle.mage_network.specs.Slots.{Paged, Slot, Idle, Doing, Service, idle, over_slots, at_once, NeverAsksTwice, PagesMean, IsServed};

/// Workers over slots, whose transfers others claim and serve in whatever order, mean workers whose
/// transfers are asked, claimed and served at once, where no own run asks for a page that is in
/// flight. So after every list of events all that a worker did begins what is done together, at a
/// worker that is done there; and for each capacity from 1 on some event can happen, or each such
/// worker stands where it stands there. Where then no slot is in flight, the pages are the same.
pub fn slots_keep_the_meaning<Eng, L, W, B>()
    ensures means { (engine : ℕ → Eng → Doing Eng L W B) (engines : ℕ → Eng) (pages : ℕ → ℕ → B)
        → NeverAsksTwice engine (λ n. idle (engines n) (pages n))
        → Means (IsServed engine (λ n. idle (engines n) (pages n)))
        (over_slots engine) (at_once engine)
        (λ n. idle (engines n) (pages n)) (λ n. idle (engines n) (pages n)) }
    ensures begins { (engine : ℕ → Eng → Doing Eng L W B) (engines : ℕ → Eng) (pages : ℕ → ℕ → B)
        → NeverAsksTwice engine (λ n. idle (engines n) (pages n))
        → (capacity : ℕ) (list : List (Event Service)) (turns : List Joint) (n : ℕ)
        → at_once engine n
        (together (at_once engine) (λ m. idle (engines m) (pages m)) turns n).state ≡ Stops
        → BeginsTied (IsServed engine (λ m. idle (engines m) (pages m)) n)
        ((over_slots engine).act n)
        ((after_events (over_slots engine) (λ m. idle (engines m) (pages m))
        capacity list).workers n)
        (together (at_once engine) (λ m. idle (engines m) (pages m)) turns n) }
    ensures stuck { (engine : ℕ → Eng → Doing Eng L W B) (engines : ℕ → Eng) (pages : ℕ → ℕ → B)
        → NeverAsksTwice engine (λ n. idle (engines n) (pages n))
        → (capacity : ℕ) (list : List (Event Service)) (turns : List Joint) → IsCapacity capacity
        → SomeCanHappen (over_slots engine) capacity
        (after_events (over_slots engine) (λ n. idle (engines n) (pages n)) capacity list)
        ⊎ ((n : ℕ) → at_once engine n
        (together (at_once engine) (λ m. idle (engines m) (pages m)) turns n).state ≡ Stops
        → StandsAs (IsServed engine (λ m. idle (engines m) (pages m)) n)
        ((after_events (over_slots engine) (λ m. idle (engines m) (pages m))
        capacity list).workers n)
        (together (at_once engine) (λ m. idle (engines m) (pages m)) turns n)) }
    ensures settled { (real meant : Paged Eng B) → PagesMean real meant
        → ((i : ℕ) → meant.slots i ≡ Idle)
        → ((i : ℕ) → real.slots i ≡ Idle) × ((page : ℕ) → real.pages page ≡ meant.pages page) }
{}
