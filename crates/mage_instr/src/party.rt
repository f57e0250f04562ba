// The two parties of a computation.

/// Who an input value comes from.
#[derive(Clone, Copy, Debug, PartialEq, Eq)]
pub enum Party {
    Garbler,
    Evaluator,
}
