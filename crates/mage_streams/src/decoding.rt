// The law of decoding.
ghost use Rattle.mage_streams.specs.Laws.{DecodingGivesTheValue};

/// What the streams of a program and the labels that are dealt to its evaluator, all of one seed, are decoded to is what the
/// program puts out in plain.
pub fn law_of_decoding()
    ensures { DecodingGivesTheValue }
{}
