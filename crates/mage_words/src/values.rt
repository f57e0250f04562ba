// What the values of options are.
ghost use Rattle.std.specs.Prelude.{◌≡◌, option_map};
ghost use Rattle.clap.specs.Words.{found_of};
ghost use Rattle.mage_words.specs.Words.{number, limits_of, if_within};
ghost use Rattle.mage_words.specs.Answers.{value_in};

use crate::number::number_for;
use crate::option::OptionName;
use crate::table::rule_of;
use clap::ArgMatches;
use mage_instr::Limits;

// The most wires that frames and buffer hold together.
const MOST_WIRES: u128 = 4_194_304;

/// The value of an option.
pub fn value<'a>(matches: &ArgMatches<'a>, option: OptionName) -> Option<&'a str>
    ensures { option_map (λ s. s.now) result ≡ value_in (found_of matches.now) option }
{
    matches.get_str(rule_of(option).name)
}

/// The number of an option, where it is in its range.
pub fn number(matches: &ArgMatches<'_>, option: OptionName) -> Option<u32>
    ensures { result ≡ number (value_in (found_of matches.now)) option }
{
    number_for(rule_of(option).kind, value(matches, option)?)
}

// Whether the limits are within the wires that frames and buffer may hold.
fn within(limits: Limits) -> Option<Limits>
    ensures { result ≡ if_within limits }
{
    let slots = u128::from(limits.frames) + u128::from(limits.buffer);
    if slots * u128::from(limits.page) <= MOST_WIRES {
        Some(limits)
    } else {
        None
    }
}

// The buffer's slots.
fn buffer(matches: &ArgMatches<'_>) -> Option<u16>
    ensures { result ≡ number (value_in (found_of matches.now)) OptionName.Buffer }
{
    u16::try_from(number(matches, OptionName::Buffer)?).ok()
}

/// The limits that the values of four options are.
#[tactic(auto, unfolding(crate::specs::Words::limits_of))]
pub fn limits(matches: &ArgMatches<'_>) -> Option<Limits>
    ensures { result ≡ limits_of (value_in (found_of matches.now)) }
{
    let page = number(matches, OptionName::Page)?;
    let frames = number(matches, OptionName::Frames)?;
    let buffer = buffer(matches)?;
    let ahead = number(matches, OptionName::Ahead)?;
    within(Limits {
        page,
        frames,
        buffer,
        ahead,
    })
}
