// The labels of inputs, and the bits of outputs.
ghost use Rattle.std.specs.Prelude.{◌≡◌, ◌≤◌, ◌-◌, ◌*◌, ◌∷◌, ℕ, suc, length, drop};
ghost use Rattle.mage_streams.specs.Evaluating.{first_labels, next_label, next_labels};
ghost use Rattle.mage_eval.specs.Reading.{after_bytes, after_labels};

use crate::incoming::Stream;
use mage_base::Source;
use mage_label::Label;

/// The next label of a stream, which is here.
pub(crate) fn read_label<R: Source>(stream: &mut Stream<R>) -> Label
    requires here { 16 ≤ stream.old.ready }
    requires enough { 16 ≤ length stream.old.left }
    ensures label { result ≡ next_label stream.old.left }
    ensures left { stream.new ≡ after_bytes stream.old 16 }
{
    let mut bytes = [0; 16];
    stream.read(&mut bytes);
    Label { bytes }
}

/// The two tables of an AND, which are here.
pub(crate) fn read_tables<R: Source>(stream: &mut Stream<R>) -> (Label, Label)
    requires here { 32 ≤ stream.old.ready }
    requires enough { 32 ≤ length stream.old.left }
    ensures generator { result.0 ≡ next_label stream.old.left }
    ensures evaluator { result.1 ≡ next_label (drop 16 stream.old.left) }
    ensures left { stream.new ≡ record (after_bytes stream.old 32) { ready = stream.old.ready - 16 - 16 } }
{
    let generator = read_label(stream);
    let evaluator = read_label(stream);
    (generator, evaluator)
}

/// Labels of a stream, which are here.
pub(crate) fn read_labels<R: Source>(stream: &mut Stream<R>, into: &mut [Label])
    requires here { 16 * length into.old ≤ stream.old.ready }
    requires enough { 16 * length into.old ≤ length stream.old.left }
    ensures labels { into.new ≡ next_labels (length into.old) stream.old.left }
    ensures left { stream.new ≡ after_labels stream.old (length into.old) }
{
    for i in 0..into.len() {
        into[i] = read_label(stream);
    }
}

// The label at a place, and the place behind it; blank past the last.
fn label_at(labels: &[Label], place: usize) -> (Label, usize)
    requires { place ≤ length labels.now }
    ensures label { (count : ℕ) → first_labels (suc count) (drop place labels.now)
        ≡ result.0 ∷ first_labels count (drop result.1 labels.now) }
    ensures place { (count : ℕ) → drop (suc count) (drop place labels.now) ≡ drop count (drop result.1 labels.now) }
    ensures within { result.1 ≤ length labels.now }
{
    if place < labels.len() {
        (labels[place], place + 1)
    } else {
        (Label { bytes: [0; 16] }, place)
    }
}

/// The first labels of those behind a place, blank past the last; and the place behind them.
pub(crate) fn first_labels(labels: &[Label], place: usize, into: &mut [Label]) -> usize
    requires { place ≤ length labels.now }
    ensures labels { into.new ≡ first_labels (length into.old) (drop place labels.now) }
    ensures place { drop result labels.now ≡ drop (length into.old) (drop place labels.now) }
    ensures within { result ≤ length labels.now }
{
    let mut next = place;
    for i in 0..into.len() {
        let (label, behind) = label_at(labels, next);
        into[i] = label;
        next = behind;
    }
    next
}
