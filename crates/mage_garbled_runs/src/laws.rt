// The laws of garbled runs.
ghost use Rattle.std.specs.Prelude.{◌≡◌, ◌<◌, ℕ, List};
ghost use Rattle.mage_base.specs.Sink.{SinkTold};
ghost use Rattle.mage_base.specs.Source.{SourceTold};
ghost use Rattle.mage_instr.specs.declared.directive.MemProgram.{MemProgram};
ghost use Rattle.mage_label.specs.declared.labels.Label.{Label};
ghost use Rattle.mage_linked.specs.Emission.{program_of};
ghost use Rattle.mage_linked.specs.Workers.{list_at};
ghost use Rattle.mage_linked.specs.declared.emitted.Emitted.{Emitted};
ghost use Rattle.mage_meaning.specs.Given.{Given};
ghost use Rattle.mage_meaning.specs.Means.{means_of};
ghost use Rattle.mage_carried.specs.Laws.{CanRun, Carries};
ghost use Rattle.mage_streams.specs.Streams.{decoded_outputs};
ghost use Rattle.mage_garbled_runs.specs.Runs.{Garbles, Decodes, AreWhole};
ghost use Rattle.mage_garbled_runs.specs.Meant.{CanRunOn, AreStreamed, EvaluatesAsMeant, labels_of, streams_of};

/// The joint run of a memory program that carries a program, garbled: each worker puts the garbled stream of
/// the program into its sink. And evaluated: each worker puts out what is decoded from its labels and its
/// stream, whatever these have. In both every worker ends.
pub fn carried_programs_garble_and_decode()
    ensures garbles { (count : ℕ) (emitted : List Emitted) (plan : MemProgram) (seed : List ℕ)
        (garbler : ℕ → List ℕ) (sinks : ℕ → SinkTold) → CanRun count emitted
        → Carries count emitted plan → Garbles count emitted plan seed garbler sinks }
    ensures decodes { (count : ℕ) (emitted : List Emitted) (plan : MemProgram)
        (labels : ℕ → List Label) (rooms : ℕ → ℕ) (sources : ℕ → SourceTold)
        → ((n : ℕ) → AreWhole (labels n)) → CanRun count emitted
        → Carries count emitted plan → Decodes count emitted plan labels rooms sources }
{}

/// What is decoded from the streams of a program and the labels that are dealt, all of one seed and the same
/// inputs, is what the program means on numbers; and so the joint run of the evaluators over each memory
/// program that carries the program puts out what the program means. Neither depends on the seed.
pub fn decoding_gives_what_is_meant()
    ensures decoded { (count : ℕ) (emitted : List Emitted) (given : Given) (seed : List ℕ)
        → CanRunOn count emitted given → (n : ℕ) → n < count
        → decoded_outputs (program_of count emitted) (labels_of count emitted given seed)
        (streams_of count emitted given seed) n
        ≡ list_at (means_of (program_of count emitted) given) n }
    ensures carried { (count : ℕ) (emitted : List Emitted) (given : Given) (seed : List ℕ)
        (plan : MemProgram) (rooms : ℕ → ℕ) (sources : ℕ → SourceTold)
        → CanRunOn count emitted given → AreStreamed count emitted given seed rooms sources
        → Carries count emitted plan
        → EvaluatesAsMeant count emitted given seed plan rooms sources }
{}
