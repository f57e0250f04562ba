// The levels of the grammar.

/// The levels of a constant, each of which is made of the one before: an atom, one with signs,
/// products and sums.
#[derive(Clone, Copy, Debug, PartialEq, Eq)]
pub enum ConstLevel {
    Atom,
    Unary,
    Product,
    Sum,
}

/// The levels of an expression, each of which is made of the one before.
#[derive(Clone, Copy, Debug, PartialEq, Eq)]
pub enum Level {
    Unary,
    Product,
    Sum,
    Shift,
    And,
    Xor,
    Or,
    Compare,
}
