// Workers whose reads are answered.
ghost use Rattle.std.specs.Prelude.{◌≡◌, ◌++◌, ℕ, List, [], Option};
ghost use Rattle.mage_network.specs.Workers.{Act, Moves, Sends, Takes, Stops};
ghost use Rattle.mage_network.specs.Network.{put, appended};
ghost use Rattle.mage_network.specs.Together.{Joint, together};
ghost use Rattle.mage_network.specs.Answers.{Hearing, Does, Hears, Answered, answered, IsAlongAnswers, AreAnswered, BeginsAnswered};

/// What code that keeps no past has to know of a run that is answered: its start is along, and so
/// is each exit of a step, of which one adds an answer to those that were heard.
pub fn answers_go_along<S, L, W, B>()
    ensures starts { (next : S → Hearing S L W B) (start : S)
        → IsAlongAnswers next start start (λ key. []) [] (λ m. []) (λ m. []) }
    ensures moved { (next : S → Hearing S L W B) (start state after : S) (heard : ℕ → List B)
        (said x : List L) (taken sent : ℕ → List W)
        → next state ≡ Does (Moves x after)
        → IsAlongAnswers next start state heard said taken sent
        → IsAlongAnswers next start after heard (said ++ x) taken sent }
    ensures sends { (next : S → Hearing S L W B) (start state after : S) (heard : ℕ → List B)
        (said : List L) (taken sent : ℕ → List W) (target : ℕ) (wire : W)
        → next state ≡ Does (Sends target wire after)
        → IsAlongAnswers next start state heard said taken sent
        → IsAlongAnswers next start after heard said taken
        (put sent target (appended (sent target) wire)) }
    ensures takes { (next : S → Hearing S L W B) (start state : S) (after : W → S)
        (heard : ℕ → List B) (said : List L) (taken sent : ℕ → List W) (source : ℕ) (wire : W)
        → next state ≡ Does (Takes source after)
        → IsAlongAnswers next start state heard said taken sent
        → IsAlongAnswers next start (after wire) heard said
        (put taken source (appended (taken source) wire)) sent }
    ensures hears { (next : S → Hearing S L W B) (start state : S) (after : B → S)
        (heard : ℕ → List B) (said : List L) (taken sent : ℕ → List W) (key : ℕ) (answer : B)
        → next state ≡ Hears key after
        → IsAlongAnswers next start state heard said taken sent
        → IsAlongAnswers next start (after answer)
        (put heard key (appended (heard key) answer)) said taken sent }
{}

/// Workers that went each some way on its own, over prefixes of what was sent to it and of the
/// answers that are given to it, against any turns together over these answers: where the worker
/// is done after the turns, all that it said and sent begins what it says and sends there, and is
/// all of it if it is done. What an answer past the end is there, if one is, makes no difference.
pub fn answered_runs_begin_the_joint_run<S, L, W, B>()
    ensures { (past_end : Option B) (next : ℕ → S → Hearing S L W B) (starts states : ℕ → S)
        (answers heard : ℕ → ℕ → List B) (said : ℕ → List L) (taken sent : ℕ → ℕ → List W)
        (turns : List Joint) → AreAnswered next starts states answers heard said taken sent
        → (n : ℕ) → answered past_end (next n)
        (together (λ m. answered past_end (next m))
        (λ m. record { state = starts m; answers = answers m }) turns n).state ≡ Stops
        → BeginsAnswered (next n)
        (together (λ m. answered past_end (next m))
        (λ m. record { state = starts m; answers = answers m }) turns n)
        (states n) (said n) (sent n) }
{}
