// The classes of tokens that the grammar speaks of.

/// The keywords.
#[derive(Clone, Copy, Debug, PartialEq, Eq)]
pub enum Keyword {
    Workers,
    Const,
    Input,
    Garbler,
    Evaluator,
    Let,
    Array,
    Move,
    On,
    For,
    In,
    If,
    Else,
    Output,
    Lit,
    Resize,
    Mux,
}

/// The words of calls. They are no keywords: they are names where no `(` follows.
#[derive(Clone, Copy, Debug, PartialEq, Eq)]
pub enum Callable {
    Min,
    Max,
    Count,
}

/// A class of tokens.
#[derive(Clone, Copy, Debug, PartialEq, Eq)]
pub enum Class {
    /// One keyword.
    Word(Keyword),
    /// The symbol of this row.
    Symbol(u8),
    /// A number.
    Number,
    /// A word that is no keyword and no type word.
    Name,
    /// A type word.
    Type,
    /// `garbler` or `evaluator`.
    Party,
    /// `min` or `max`, which choose one of two operands.
    Choosing,
    /// `count`, which has one operand.
    Counting,
    /// `+` or `-`.
    Adding,
    /// `*`, `/` or `%`.
    Scaling,
    /// `<<` or `>>`.
    Shifting,
    /// `==` or `<`.
    Comparing,
}
