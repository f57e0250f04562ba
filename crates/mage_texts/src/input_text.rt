// The numbers of an input text.
ghost use Rattle.std.specs.Prelude.{◌≡◌, ◌+◌, ◌^◌, ◌<◌, ◌≤◌, ◌∷◌, length, [], All, IfOk, IfErr, IsTrue, nat_lt, ◌*◌, position, ◌==◌, ℕ, List};
ghost use Rattle.std.specs.List.{list_all};
ghost use Rattle.std.specs.Char.{is_ascii_digit, digit_value};
ghost use Rattle.std.specs.Option.{SomeIff};
ghost use Rattle.std.specs.Str.Parse.{digits_value};
ghost use Rattle.mage_texts.specs.Lists.{lists_of};
ghost use Rattle.mage_texts.specs.InputText.{inputs_of, lines_of, number_of_line, IsReadOf, IsWidth, FitWidths};
ghost use Rattle.mage_texts.specs.Reading.{IsFront, IsFaultIn};

use std::alloc::{AllocError, AllocFailed, Global};
use thiserror::Error;

/// Why an input text gives no numbers.
#[derive(Clone, Copy, Debug, PartialEq, Eq, Error)]
pub enum InputFault {
    /// The first line that is bad, missing or too many, counted from 1.
    #[error("line {line} is faulty")]
    Line { line: u64 },
    /// There was no memory for the numbers.
    #[error("no memory")]
    Memory,
}

// The most digits of a line.
const DIGITS: usize = 39;

/// The numbers of an input text, by worker and in order: `widths` has a list for each worker, of the widths of its
/// values.
///
/// The text has one line for each value, worker 0's first. Line feeds part the lines, and the last one is optional.
/// A line is 1 to 39 decimal digits, leading zeros allowed, of a number below 2 to the value's width. The fault is
/// the first line that is bad, missing or too many.
pub fn read_inputs(
    alloc: Global,
    text: &[u8],
    widths: &[Vec<u8>],
) -> Result<Vec<Vec<u128>>, InputFault>
    requires { All (λ own. All IsWidth own.items) widths.now }
    ensures numbers { IsReadOf (inputs_of text.now (lists_of widths.now)) result }
    ensures fit { IfOk result (λ numbers.
        FitWidths (lists_of widths.now) (lists_of numbers.items)) }
{
    let mut numbers = Vec::new(alloc);
    let mut left = Lines {
        rest: text,
        number: 1,
    };
    for own in widths {
        let (worker, after) = read_worker(alloc, left, own.as_slice())?;
        numbers.push(worker).map_err(|_| InputFault::Memory)?;
        left = after;
    }
    if left.rest.is_empty() {
        Ok(numbers)
    } else {
        Err(InputFault::Line { line: left.number })
    }
}

// The place of the first line feed.
fn end_of_line(text: &[u8]) -> Option<usize>
    ensures { result ≡ position (λ byte. byte == 10) text.now }
{
    text.iter().position(|byte| *byte == b'\n')
}

// The line up to the first line feed, and what is after it.
fn first_line(text: &[u8]) -> (&[u8], &[u8])
    requires { 0 < length text.now }
    ensures lines { lines_of text.now ≡ result.0.now ∷ lines_of result.1.now }
    ensures shorter { length result.1.now < length text.now }
{
    match end_of_line(text) {
        Some(end) => (&text[..end], &text[end + 1..]),
        None => text.split_at(text.len()),
    }
}

// Whether each byte is a decimal digit.
fn are_digits(line: &[u8]) -> bool
    ensures { result ≡ list_all is_ascii_digit line.now }
{
    line.iter().all(|byte| byte.is_ascii_digit())
}

// The number that decimal digits write, where it is below 2 to 128.
fn value_of(digits: &[u8]) -> Option<u128>
    requires { IsTrue (list_all is_ascii_digit digits.now) }
    ensures { SomeIff result (digits_value 10 digits.now < 2 ^ 128) (digits_value 10 digits.now) }
{
    let mut value: u128 = 0;
    for digit in digits {
        value = with_digit(value, *digit)?;
    }
    Some(value)
}

// The number with one decimal digit more, where it is below 2 to 128.
fn with_digit(value: u128, digit: u8) -> Option<u128>
    requires { IsTrue (is_ascii_digit digit) }
    ensures { SomeIff result (value * 10 + digit_value digit < 2 ^ 128)
        (value * 10 + digit_value digit) }
{
    value.checked_mul(10)?.checked_add(u128::from(digit - b'0'))
}

// Whether a number fits a width.
fn fits(value: u128, width: u8) -> bool
    requires { IsWidth width }
    ensures { result ≡ nat_lt value (2 ^ width) }
{
    width == 128 || value < 1 << width
}

// The number of a line that is right for a value of this width.
fn number_of(line: &[u8], width: u8) -> Option<u128>
    requires { IsWidth width }
    ensures { result ≡ number_of_line width line.now }
{
    if line.is_empty() || line.len() > DIGITS || !are_digits(line) {
        return None;
    }
    let value = value_of(line)?;
    if fits(value, width) {
        Some(value)
    } else {
        None
    }
}

// The lines that are left of a text, and the number of the first of them.
#[derive(Clone, Copy)]
struct Lines<'a> {
    rest: &'a [u8],
    number: u64,
}

// The number of the next line for a value of this width, and the lines after it.
fn next_number<'a>(lines: Lines<'a>, width: u8) -> Result<(u128, Lines<'a>), InputFault>
    requires width { IsWidth width }
    requires countable { lines.number + length lines.rest.now < 2 ^ 64 }
    ensures number { IfOk result (λ next.
        IsFront lines.entry.number lines.entry.rest.now (width ∷ []) (next.0 ∷ []) next.1.number
        next.1.rest.now) }
    ensures fault { IfErr result
        (IsFaultIn lines.entry.number lines.entry.rest.now (width ∷ [])) }
    ensures countable { IfOk result (λ next. next.1.number + length next.1.rest.now < 2 ^ 64) }
{
    if lines.rest.is_empty() {
        return Err(InputFault::Line { line: lines.number });
    }
    let (line, rest) = first_line(lines.rest);
    match number_of(line, width) {
        Some(number) => Ok((
            number,
            Lines {
                rest,
                number: lines.number + 1,
            },
        )),
        None => Err(InputFault::Line { line: lines.number }),
    }
}

// The numbers of the next lines for one worker's values of these widths, and the lines after them.
fn read_worker<'a>(
    alloc: Global,
    lines: Lines<'a>,
    widths: &[u8],
) -> Result<(Vec<u128>, Lines<'a>), InputFault>
    requires widths { All IsWidth widths.now }
    requires countable { lines.number + length lines.rest.now < 2 ^ 64 }
    ensures numbers { IfOk result (λ next.
        IsFront lines.entry.number lines.entry.rest.now widths.now next.0.items next.1.number
        next.1.rest.now) }
    ensures fault { IfErr result (IsFaultIn lines.entry.number lines.entry.rest.now widths.now) }
    ensures count { IfOk result (λ next. length next.0.items ≡ length widths.now) }
    ensures countable { IfOk result (λ next. next.1.number + length next.1.rest.now < 2 ^ 64) }
{
    let mut numbers = Vec::new(alloc);
    let mut left = lines;
    for width in widths {
        let (number, after) = next_number(left, *width)?;
        numbers.push(number).map_err(|_| InputFault::Memory)?;
        left = after;
    }
    Ok((numbers, left))
}
