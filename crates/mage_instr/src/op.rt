// The opcodes.

/// What an instruction does. The opcodes are numbered from 0 in this order.
#[derive(Clone, Copy, Debug, PartialEq, Eq)]
pub enum Op {
    /// A value that a party hands in.
    Input,
    /// A constant.
    Const,
    /// A value that is handed out.
    Output,
    Add,
    Sub,
    Mul,
    And,
    Or,
    Xor,
    Not,
    /// Whether two values are equal.
    Eq,
    /// Whether the first value is below the second.
    Lt,
    /// The second value where the first is 1, else the third.
    Mux,
    /// A shift to the left by a constant.
    Shl,
    /// A shift to the right by a constant.
    Shr,
    /// A value in another width.
    Resize,
    /// Hands a value to another worker.
    Send,
    /// Takes a value from another worker.
    Recv,
    /// The whole quotient; each bit is 1 where the divisor is 0.
    Div,
    /// What division leaves; the dividend where the divisor is 0.
    Rem,
    /// How many bits are 1.
    Count,
    /// The lesser of two values.
    Min,
    /// The greater of two values.
    Max,
}
