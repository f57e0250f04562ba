// The second law: real workers that wait for others, and what they mean.
ghost use Rattle.std.specs.Prelude.{◌≡◌, ◌⊎◌, ℕ, List};
ghost use Rattle.mage_network.specs.Workers.{Act, Stops};
ghost use Rattle.mage_network.specs.Pasts.{AreComparable};
ghost use Rattle.mage_network.specs.Together.{Joint, together};
ghost use Rattle.mage_network.specs.Laws.{IsCapacity};
ghost use Rattle.mage_network.specs.Waiting.{Waiting, Event, after_events, SomeCanHappen, Means, StandsAs, BeginsTied, IsPair};

/// Real workers that wait, and things that happen to them silently, against turns together of what
/// they mean. T are the pairs of a real state and its meaning that are tied. After every list of
/// events: a worker's past and that of its meaning's joint run are comparable; where the meaning is
/// done after the turns, all that the worker did begins what is done there, and is all of it if the
/// worker is done; and for each capacity from 1 on some event can happen, or each worker whose
/// meaning is done after the turns stands where it stands there.
pub fn what_is_meant_happens<R, E, S, L, W, T>()
    ensures comparable { (real_of : ℕ → T → R) (meant_of : ℕ → T → S)
        (real : Waiting R E L W) (next : ℕ → S → Act S L W) (real_starts : ℕ → R) (starts : ℕ → S)
        → Means (λ n. IsPair (real_of n) (meant_of n)) real next real_starts starts
        → (capacity : ℕ) (list : List (Event E)) (turns : List Joint) (n : ℕ)
        → AreComparable ((after_events real real_starts capacity list).workers n).past
        (together next starts turns n).past }
    ensures begins { (real_of : ℕ → T → R) (meant_of : ℕ → T → S)
        (real : Waiting R E L W) (next : ℕ → S → Act S L W) (real_starts : ℕ → R) (starts : ℕ → S)
        → Means (λ n. IsPair (real_of n) (meant_of n)) real next real_starts starts
        → (capacity : ℕ) (list : List (Event E)) (turns : List Joint)
        (n : ℕ) → next n (together next starts turns n).state ≡ Stops
        → BeginsTied (IsPair (real_of n) (meant_of n)) (real.act n)
        ((after_events real real_starts capacity list).workers n)
        (together next starts turns n) }
    ensures stuck { (real_of : ℕ → T → R) (meant_of : ℕ → T → S)
        (real : Waiting R E L W) (next : ℕ → S → Act S L W) (real_starts : ℕ → R) (starts : ℕ → S)
        → Means (λ n. IsPair (real_of n) (meant_of n)) real next real_starts starts
        → (capacity : ℕ) (list : List (Event E)) (turns : List Joint) → IsCapacity capacity
        → SomeCanHappen real capacity (after_events real real_starts capacity list)
        ⊎ ((n : ℕ) → next n (together next starts turns n).state ≡ Stops
        → StandsAs (IsPair (real_of n) (meant_of n))
        ((after_events real real_starts capacity list).workers n)
        (together next starts turns n)) }
{}
