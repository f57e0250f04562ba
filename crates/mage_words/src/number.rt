// Numbers.
ghost use Rattle.std.specs.Prelude.{◌≡◌};
ghost use Rattle.std.specs.List.{list_all};
ghost use Rattle.std.specs.Char.{is_ascii_digit};
ghost use Rattle.mage_words.specs.Words.{is_number, number_in, number_for};

use crate::option::Kind;

// The most digits of a number.
const DIGITS: usize = 20;

fn are_digits(text: &[u8]) -> bool
    ensures { result ≡ list_all is_ascii_digit text.now }
{
    text.iter().all(|byte| byte.is_ascii_digit())
}

// Whether the text is 1 to 20 decimal digits.
fn is_number(text: &str) -> bool
    ensures { result ≡ is_number text.now }
{
    !text.is_empty() && text.len() <= DIGITS && are_digits(text.as_bytes())
}

// The number that the text writes, where it is one in this range.
fn number_in(text: &str, least: u32, most: u32) -> Option<u32>
    ensures { result ≡ number_in least most text.now }
{
    if !is_number(text) {
        return None;
    }
    match text.parse::<u32>() {
        Ok(number) if least <= number && number <= most => Some(number),
        _ => None,
    }
}

/// The number that the text writes, where it is one that an option of this kind may have.
pub fn number_for(kind: Kind, text: &str) -> Option<u32>
    ensures { result ≡ number_for kind text.now }
{
    match kind {
        Kind::Number { least, most } => number_in(text, least, most),
        Kind::PowerOfTwo { least, most } => {
            number_in(text, least, most).filter(|number| number.is_power_of_two())
        }
        Kind::File | Kind::Driver => None,
    }
}
