// Operators on numbers, modulo 2 to the width: arithmetic that wraps at 2^128, and then a mask.
ghost use Rattle.std.specs.Prelude.{◌≡◌, ◌<◌, ◌^◌, ◌==◌, if◌then◌else◌};
ghost use Rattle.mage_bits.specs.Modular.{add_mod, sub_mod, mul_mod, not_mod, lt_mod, shl_mod, shr_mod, resize_mod, div_mod, rem_mod, count_mod};
ghost use Rattle.mage_meaning.specs.Value.{wide, call_of_one, call_of_two, combined, shifted};

use crate::known::Wide;
use crate::width::Width;
use mage_constants::row_of;
use mage_lex::Token;
use mage_lex::symbols::{
    AND, DIVIDE, EQUALS, LESS, MINUS, OR, PLUS, REMAINDER, SHIFT_LEFT, SHIFT_RIGHT, TIMES, XOR,
};
use mage_tree::Callable;

/// A number of a width.
pub fn wide(width: Width, value: u128) -> Wide
    ensures { result ≡ wide width value }
{
    Wide { width, value }
}

#[tactic(auto, using(crate::proofs::Wrapping::wraps))]
fn added(width: Width, a: u128, b: u128) -> u128
    ensures { result ≡ add_mod width a b }
{
    width.reduced(a.wrapping_add(b))
}

fn subtracted(width: Width, a: u128, b: u128) -> u128
    ensures { result ≡ sub_mod width a b }
{
    if b <= a {
        width.reduced(a - b)
    } else {
        width.mask().saturating_sub(b - a - 1)
    }
}

#[tactic(auto, using(crate::proofs::Wrapping::wraps))]
fn multiplied(width: Width, a: u128, b: u128) -> u128
    ensures { result ≡ mul_mod width a b }
{
    width.reduced(a.wrapping_mul(b))
}

// The whole quotient; each bit is 1 where the divisor is 0.
fn divided(width: Width, a: u128, b: u128) -> u128
    ensures { result ≡ div_mod width a b }
{
    if b == 0 { width.mask() } else { a / b }
}

// What division leaves; the dividend where the divisor is 0.
fn remainder(width: Width, a: u128, b: u128) -> u128
    ensures { result ≡ rem_mod width a b }
{
    if b == 0 { a } else { a % b }
}

/// Each bit turned over.
pub fn inverted(a: Wide) -> Wide
    ensures { result ≡ wide a.width (not_mod a.width a.value) }
{
    wide(a.width, a.width.mask().saturating_sub(a.value))
}

/// The number in another width.
pub fn resized(width: Width, a: Wide) -> Wide
    ensures { result ≡ wide width (resize_mod width a.value) }
{
    wide(width, width.reduced(a.value))
}

fn equal(a: u128, b: u128) -> u128
    ensures { result ≡ (if a == b then 1 else 0) }
{
    u128::from(a == b)
}

fn below(width: Width, a: u128, b: u128) -> u128
    ensures { result ≡ lt_mod width a b }
{
    u128::from(a < b)
}

/// A binary operator on two numbers, in the width of the first; comparisons give one bit.
#[tactic(auto, unfolding(crate::specs::Value::combined))]
pub fn combined(op: &Token, a: Wide, b: Wide) -> Wide
    ensures { result ≡ combined op.now a b }
{
    let width = a.width;
    match row_of(op) {
        PLUS => wide(width, added(width, a.value, b.value)),
        MINUS => wide(width, subtracted(width, a.value, b.value)),
        TIMES => wide(width, multiplied(width, a.value, b.value)),
        DIVIDE => wide(width, divided(width, a.value, b.value)),
        REMAINDER => wide(width, remainder(width, a.value, b.value)),
        AND => wide(width, a.value & b.value),
        XOR => wide(width, a.value ^ b.value),
        OR => wide(width, a.value | b.value),
        EQUALS => wide(Width::new(1), equal(a.value, b.value)),
        LESS => wide(Width::new(1), below(width, a.value, b.value)),
        _ => wide(Width::new(1), 0),
    }
}

// How many of the bits are 1.
fn counted(a: Wide) -> Wide
    ensures { result ≡ wide a.width (count_mod a.width a.value) }
{
    wide(a.width, u128::from(a.value.count_ones()))
}

/// A call on one number.
pub fn call_of_one(call: Option<Callable>, a: Wide) -> Wide
    ensures { result ≡ call_of_one call a }
{
    match call {
        Some(Callable::Count) => counted(a),
        Some(Callable::Min) | Some(Callable::Max) | None => wide(Width::new(1), 0),
    }
}

/// A call on two numbers.
pub fn call_of_two(call: Option<Callable>, a: Wide, b: Wide) -> Wide
    ensures { result ≡ call_of_two call a b }
{
    match call {
        Some(Callable::Min) => wide(a.width, a.value.min(b.value)),
        Some(Callable::Max) => wide(a.width, a.value.max(b.value)),
        Some(Callable::Count) | None => wide(Width::new(1), 0),
    }
}

// 2 to this power.
fn power(amount: u32) -> u128
    requires { amount < 128 }
    ensures { result ≡ 2 ^ amount }
{
    1 << amount
}

fn shifted_left(width: Width, a: u128, amount: u128) -> u128
    ensures { result ≡ shl_mod width a amount }
{
    if amount < 128 {
        width.reduced(a.wrapping_mul(power(amount as u32)))
    } else {
        let _mask = width.mask();
        0
    }
}

fn shifted_right(width: Width, a: u128, amount: u128) -> u128
    ensures { result ≡ shr_mod width a amount }
{
    if amount < 128 { a >> amount as u32 } else { 0 }
}

/// A shift of a number; what leaves its width is lost.
#[tactic(auto, unfolding(crate::specs::Value::shifted))]
pub fn shifted(op: &Token, a: Wide, amount: u128) -> Wide
    ensures { result ≡ shifted op.now a amount }
{
    match row_of(op) {
        SHIFT_LEFT => wide(a.width, shifted_left(a.width, a.value, amount)),
        SHIFT_RIGHT => wide(a.width, shifted_right(a.width, a.value, amount)),
        _ => wide(Width::new(1), 0),
    }
}
