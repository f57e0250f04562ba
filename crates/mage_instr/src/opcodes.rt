// The table of the opcodes, from which macros write each function that goes by opcode.
ghost use Rattle.std.specs.Prelude.{◌≡◌, ◌≤◌, ◌<◌, ◌^◌, ◌↔◌, IsTrue, Some, None, if◌then◌else◌};
ghost use Rattle.mage_instr.specs.Ands.{log_of, ands_of_count, and_count_of};
ghost use Rattle.mage_instr.specs.Opcodes.{arity_of, has_result, width_of_result, WidthOk};

use crate::Op;

/// The greatest width, in bits.
pub const GREATEST_WIDTH: u8 = 128;

/// How many workers a program has at most.
pub const MOST_WORKERS: u16 = 16;

// A row has an opcode, how many arguments it takes, how wide its result is, what its immediate may be, and how many ANDs
// it is made of. `$write` is the macro that is handed the rows, behind what it was given.
macro_rules! opcodes {
    ($write:ident $given:tt) => {
        $write! { $given
            Input 0 width party none;
            Const 0 width value none;
            Output 1 none zero none;
            Add 2 width zero carries;
            Sub 2 width zero carries;
            Mul 2 width zero rows;
            And 2 width zero each;
            Or 2 width zero each;
            Xor 2 width zero none;
            Not 1 width zero none;
            Eq 2 one zero carries;
            Lt 2 one zero each;
            Mux 3 width zero each;
            Shl 1 width amount none;
            Shr 1 width amount none;
            Resize 1 width width none;
            Send 1 none worker none;
            Recv 0 width worker none;
            Div 2 width zero division;
            Rem 2 width zero division;
            Count 1 width zero counting;
            Min 2 width zero twice;
            Max 2 width zero twice;
        }
    };
}

macro_rules! arities {
    (($op:expr)
        $($name:ident $arity:literal $result:ident $imm:ident $ands:ident;)*) => {
        match $op {
            $(Op::$name => $arity,)*
        }
    };
}

macro_rules! results {
    (($op:expr, $width:expr)
        $($name:ident $arity:literal $result:ident $imm:ident $ands:ident;)*) => {
        match $op {
            $(Op::$name => is_wide!($result, $width),)*
        }
    };
}

macro_rules! immediates {
    (($op:expr, $width:expr, $value:expr)
        $($name:ident $arity:literal $result:ident $imm:ident $ands:ident;)*) => {
        match $op {
            $(Op::$name => may_be!($imm, $width, $value),)*
        }
    };
}

macro_rules! and_counts {
    (($op:expr, $width:expr)
        $($name:ident $arity:literal $result:ident $imm:ident $ands:ident;)*) => {
        match $op {
            $(Op::$name => is_made_of!($ands, $width),)*
        }
    };
}

// How wide the result is, as the word of the table says.
macro_rules! is_wide {
    (none, $width:expr) => { None };
    (one, $width:expr) => { Some(1) };
    (width, $width:expr) => { Some($width) };
}

// Whether the immediate of an instruction of this width is as the word of the table says.
macro_rules! may_be {
    (zero, $width:expr, $value:expr) => { $value == 0 };
    (party, $width:expr, $value:expr) => { $value <= 1 };
    (value, $width:expr, $value:expr) => { is_below_power($value, $width) };
    (amount, $width:expr, $value:expr) => { $value <= 128 };
    (width, $width:expr, $value:expr) => { 1 <= $value && $value <= 128 };
    (worker, $width:expr, $value:expr) => { $value < 16 };
}

// How many ANDs an instruction of this width is made of, as the word of the table says.
macro_rules! is_made_of {
    (none, $width:expr) => { 0 };
    (each, $width:expr) => { $width };
    (twice, $width:expr) => { 2 * $width };
    (carries, $width:expr) => { $width - 1 };
    (rows, $width:expr) => {
        $width * ($width + 1) / 2 + ($width - 1) * $width.saturating_sub(2) / 2
    };
    (division, $width:expr) => { $width * (2 * $width + 1) };
    (counting, $width:expr) => { ands_of_count($width) };
}

// Whether a value is below 2 to this width.
fn is_below_power(value: u64, width: u8) -> bool
    ensures { IsTrue result ↔ (value < 2 ^ width) }
{
    64 <= width || value < 1 << width
}

// How many ANDs it takes to count the bits of this width that are 1.
fn ands_of_count(width: u64) -> u64
    requires some { 0 < width }
    requires few { width < 256 }
    ensures { result ≡ ands_of_count width (log_of width) }
{
    let log = u64::from(width.ilog2());
    ((width + 1) * log + 2).saturating_sub(1 << (log + 1))
}

/// How many arguments an instruction takes.
pub fn arity(op: Op) -> u8
    ensures value { result ≡ arity_of op }
    ensures at_most_three { result ≤ 3 }
{
    opcodes!(arities(op))
}

/// The width of the value that an instruction of this width defines, or `None` where it defines none.
pub fn result_width(op: Op, width: u8) -> Option<u8>
    ensures { result ≡ (if has_result op then Some (width_of_result op width) else None) }
{
    opcodes!(results(op, width))
}

/// Whether an instruction may have this width and this immediate. What its arguments are is no part of it.
pub fn width_ok(op: Op, width: u8, imm: u64) -> bool
    ensures { IsTrue result ↔ WidthOk op width imm }
{
    if width < 1 || GREATEST_WIDTH < width {
        return false;
    }
    opcodes!(immediates(op, width, imm))
}

/// How many ANDs the circuit of an instruction of this width has. It takes no memory.
pub fn and_count(op: Op, width: u8) -> u64
    requires { 1 ≤ width }
    ensures { result ≡ and_count_of op width }
{
    let width = u64::from(width);
    opcodes!(and_counts(op, width))
}

#[cfg(test)]
mod tests;
