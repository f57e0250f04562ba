// The laws of progress.
ghost use Rattle.std.specs.Prelude.{◌≡◌, ◌<◌, ℕ, List, length, None};
ghost use Rattle.mage_instr.specs.declared.directive.MemProgram.{MemProgram};
ghost use Rattle.mage_directives.specs.Directives.{IsMemProgram};
ghost use Rattle.mage_verify.specs.Faults.{fault_of};
ghost use Rattle.mage_verify.specs.Parts.{WorkerPart, parts_of};
ghost use Rattle.mage_verify.specs.Runs.{AreVerified};
ghost use Rattle.mage_network.specs.Laws.{IsCapacity};
ghost use Rattle.mage_progress.specs.Stands.{Stand, Held, at_first, next_in, HasEnded, AreSame, GoesOn, IsReached, StandsStill, left_of};

/// Of the parts of a memory program without a fault, whose workers make their steps in any order, over links that hold any
/// number of wires from 1 on: where each worker has ended or waits at a link, all have ended (`never_stuck`); and each step makes
/// what is still to come smaller (`shrinks`). So steps that are made as long as one can be made end with the last worker. What is
/// the same for each worker and each link is as good (`same`, `rests`, `still`).
///
/// What drivers and stores answer has no part in it. That a transfer is done isn't claimed: a worker that waits for one stands
/// outside of these laws.
pub fn machines_are_never_all_stuck()
    ensures programs { (plan : MemProgram) → IsMemProgram plan → fault_of plan ≡ None
        → AreVerified (parts_of plan) }
    ensures starts { (parts : List WorkerPart) (stands : ℕ → Stand) (held : Held)
        → ((worker : ℕ) → worker < length parts → stands worker ≡ at_first)
        → ((s t : ℕ) → held s t ≡ 0) → IsReached parts stands held }
    ensures moves { (parts : List WorkerPart) (stands later : ℕ → Stand) (held left : Held)
        (worker : ℕ) → IsReached parts stands held → worker < length parts
        → GoesOn parts worker stands held later left → IsReached parts later left }
    ensures never_stuck { (parts : List WorkerPart) (capacity : ℕ) (stands : ℕ → Stand)
        (held : Held) → AreVerified parts → IsCapacity capacity → IsReached parts stands held
        → ((worker : ℕ) → worker < length parts → StandsStill parts stands capacity worker held)
        → (worker : ℕ) → worker < length parts
        → HasEnded (next_in parts stands worker) (stands worker) }
    ensures shrinks { (parts : List WorkerPart) (stands later : ℕ → Stand) (held left : Held)
        (worker : ℕ) → AreVerified parts → IsReached parts stands held → worker < length parts
        → GoesOn parts worker stands held later left
        → left_of parts later < left_of parts stands }
    ensures same { (parts : List WorkerPart) (stands others : ℕ → Stand) (held left : Held)
        → IsReached parts stands held
        → ((worker : ℕ) → worker < length parts → others worker ≡ stands worker)
        → AreSame held left → IsReached parts others left }
    ensures rests { (parts : List WorkerPart) (stands others : ℕ → Stand)
        (capacity worker : ℕ) (held left : Held) → others worker ≡ stands worker
        → AreSame held left → StandsStill parts stands capacity worker held
        → StandsStill parts others capacity worker left }
    ensures still { (parts : List WorkerPart) (stands others : ℕ → Stand)
        → ((worker : ℕ) → worker < length parts → others worker ≡ stands worker)
        → left_of parts others ≡ left_of parts stands }
{}
