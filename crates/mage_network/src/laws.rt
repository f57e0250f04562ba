// The laws of networks.
ghost use Rattle.std.specs.Prelude.{◌≡◌, ◌⊎◌, ◌++◌, ℕ, List, [], ◌∷◌, length};
ghost use Rattle.mage_network.specs.Workers.{Act, Moves, Sends, Takes, Stops, Deed, Worker, taken_from, own_run};
ghost use Rattle.mage_network.specs.Pasts.{Leads, WentAlone, AreComparable, IsAlong};
ghost use Rattle.mage_network.specs.Network.{put, appended};
ghost use Rattle.mage_network.specs.Together.{Joint, together};
ghost use Rattle.mage_network.specs.Laws.{network_after, EachIsOnItsOwnRun, LinksHoldTheRest, WentApart, Begins, AreAlong, BeginsAlong, IsCapacity, SomeIsEnabled, AreDone};
ghost use Rattle.mage_network.specs.Adding.{adder, adder_starts, adder_turns, adder_schedule, adder_end};

/// In every state of a network each worker is where it comes on its own over what it took; and on
/// each link, what was sent is what was taken, and then what lies on it. After turns together each
/// worker is on its own run too.
pub fn each_is_on_its_own_run<S, L, W>()
    ensures workers { (next : ℕ → S → Act S L W) (starts : ℕ → S)
        (capacity : ℕ) (schedule : List ℕ)
        → EachIsOnItsOwnRun next starts (network_after next starts capacity schedule).workers }
    ensures links { (next : ℕ → S → Act S L W) (starts : ℕ → S)
        (capacity : ℕ) (schedule : List ℕ)
        → LinksHoldTheRest (network_after next starts capacity schedule).workers
        (network_after next starts capacity schedule).links }
    ensures together { (next : ℕ → S → Act S L W) (starts : ℕ → S) (turns : List Joint) (n : ℕ)
        → WentAlone (next n) (starts n) (together next starts turns n) }
{}

/// Each own run is led to by its past, whatever it receives; and a past that leads from the start
/// to a state is that of the own run over the wires that it took, after as many turns as it has
/// deeds.
pub fn own_runs_are_runs<S, L, W>()
    ensures leads { (next : S → Act S L W) (start : S) (received : ℕ → List W) (turns : ℕ)
        → WentAlone next start (own_run next start received turns) }
    ensures computed { (next : S → Act S L W) (start : S) (worker : Worker S L W)
        → WentAlone next start worker
        → own_run next start (λ m. taken_from m worker.past) (length worker.past) ≡ worker }
{}

/// What code that keeps no past has to know: its start is along the run, and each exit of a step
/// stays along.
pub fn steps_go_along<S, L, W>()
    ensures starts { (next : S → Act S L W) (start : S)
        → IsAlong next start start [] (λ m. []) (λ m. []) }
    ensures moved { (next : S → Act S L W) (start state after : S)
        (said x : List L) (taken sent : ℕ → List W)
        → next state ≡ Moves x after → IsAlong next start state said taken sent
        → IsAlong next start after (said ++ x) taken sent }
    ensures sends { (next : S → Act S L W) (start state after : S)
        (said : List L) (taken sent : ℕ → List W) (target : ℕ) (wire : W)
        → next state ≡ Sends target wire after → IsAlong next start state said taken sent
        → IsAlong next start after said taken
        (put sent target (appended (sent target) wire)) }
    ensures takes { (next : S → Act S L W) (start state : S) (after : W → S)
        (said : List L) (taken sent : ℕ → List W) (source : ℕ) (wire : W)
        → next state ≡ Takes source after → IsAlong next start state said taken sent
        → IsAlong next start (after wire) said
        (put taken source (appended (taken source) wire)) sent }
{}

/// Workers that went each some way on its own, over prefixes of what was sent to it, against any
/// turns together: of a worker's two pasts one is an earlier state of the other; and where the
/// worker is done after the turns, all that it did begins what it did there, and is all of it if
/// it is done. So of every schedule, for every capacity; and turns together in two orders leave a
/// worker that is done after both in one state, with one past.
pub fn runs_begin_the_joint_run<S, L, W>()
    ensures comparable { (next : ℕ → S → Act S L W) (starts : ℕ → S)
        (workers : ℕ → Worker S L W) (turns : List Joint) → WentApart next starts workers
        → (n : ℕ) → AreComparable (workers n).past (together next starts turns n).past }
    ensures apart { (next : ℕ → S → Act S L W) (starts : ℕ → S)
        (workers : ℕ → Worker S L W) (turns : List Joint) → WentApart next starts workers
        → (n : ℕ) → next n (together next starts turns n).state ≡ Stops
        → Begins (next n) (workers n) (together next starts turns n) }
    ensures along { (next : ℕ → S → Act S L W) (starts states : ℕ → S)
        (said : ℕ → List L) (taken sent : ℕ → ℕ → List W) (turns : List Joint)
        → AreAlong next starts states said taken sent
        → (n : ℕ) → next n (together next starts turns n).state ≡ Stops
        → BeginsAlong (next n) (together next starts turns n) (states n) (said n) (sent n) }
    ensures schedules { (next : ℕ → S → Act S L W) (starts : ℕ → S)
        (capacity : ℕ) (schedule : List ℕ) (turns : List Joint)
        (n : ℕ) → next n (together next starts turns n).state ≡ Stops
        → Begins (next n) ((network_after next starts capacity schedule).workers n)
        (together next starts turns n) }
    ensures orders { (next : ℕ → S → Act S L W) (starts : ℕ → S) (turns others : List Joint)
        (n : ℕ) → next n (together next starts turns n).state ≡ Stops
        → next n (together next starts others n).state ≡ Stops
        → together next starts others n ≡ together next starts turns n }
{}

/// For each capacity from 1 on, in every state of a network: some worker can go on, or each worker
/// that is done after some turns together stands where it stands there. So, where all are done
/// after some turns together, some worker can go on or all are done.
pub fn none_is_stuck<S, L, W>()
    ensures stopped { (next : ℕ → S → Act S L W) (starts : ℕ → S)
        (capacity : ℕ) (schedule : List ℕ) (turns : List Joint) → IsCapacity capacity
        → SomeIsEnabled next capacity (network_after next starts capacity schedule)
        ⊎ ((n : ℕ) → next n (together next starts turns n).state ≡ Stops
        → (network_after next starts capacity schedule).workers n
        ≡ together next starts turns n) }
    ensures done { (next : ℕ → S → Act S L W) (starts : ℕ → S)
        (capacity : ℕ) (schedule : List ℕ) (turns : List Joint) → IsCapacity capacity
        → AreDone next (together next starts turns)
        → SomeIsEnabled next capacity (network_after next starts capacity schedule)
        ⊎ AreDone next (network_after next starts capacity schedule).workers }
{}

/// A small network, by computing: what its workers do together, in a schedule in which they also
/// wait, and alone.
pub fn adder_says_the_sum()
    ensures together { together adder adder_starts adder_turns 0 ≡ adder_end }
    ensures schedule { (network_after adder adder_starts 1 adder_schedule).workers 0 ≡ adder_end }
    ensures alone { own_run (adder 0) (adder_starts 0) (λ m. 7 ∷ []) 6 ≡ adder_end }
{}
