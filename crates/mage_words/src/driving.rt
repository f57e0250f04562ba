// Which options belong to which driver: those of another one are refused.
ghost use Rattle.std.specs.Prelude.{◌≡◌, is_some, option_map};
ghost use Rattle.std.specs.List.{list_any};
ghost use Rattle.clap.specs.Words.{found_of};
ghost use Rattle.mage_words.specs.Words.{driver_of_values, eval_of_values, garble_of_values, plain_of_values, unless_given};
ghost use Rattle.mage_words.specs.Answers.{driver_view, value_in};

use crate::driver::DriverName;
use crate::option::OptionName;
use crate::request::Driver;
use crate::values::value;
use clap::ArgMatches;

// Whether one of these options is given.
fn is_given(matches: &ArgMatches<'_>, options: &[OptionName]) -> bool
    ensures { result ≡ list_any (λ name. is_some (value_in (found_of matches.now) name)) options.now }
{
    options
        .iter()
        .any(|option| value(matches, *option).is_some())
}

// The driver, where none of these options is given, which are those of other drivers.
fn unless_given<'a>(
    matches: &ArgMatches<'a>,
    others: &[OptionName],
    driver: Driver<'a>,
) -> Option<Driver<'a>>
    ensures { option_map driver_view result
        ≡ unless_given (value_in (found_of matches.now)) others.now (driver_view driver.entry) }
{
    if is_given(matches, others) {
        None
    } else {
        Some(driver)
    }
}

#[tactic(auto, unfolding(crate::specs::Words::plain_of_values))]
fn plain_of<'a>(matches: &ArgMatches<'a>) -> Option<Driver<'a>>
    ensures { option_map driver_view result ≡ plain_of_values (value_in (found_of matches.now)) }
{
    let driver = Driver::Plain {
        garbler: value(matches, OptionName::Garbler),
        evaluator: value(matches, OptionName::Evaluator),
    };
    unless_given(
        matches,
        &[OptionName::Seed, OptionName::Stream, OptionName::Labels],
        driver,
    )
}

#[tactic(auto, unfolding(crate::specs::Words::garble_of_values))]
fn garble_of<'a>(matches: &ArgMatches<'a>) -> Option<Driver<'a>>
    ensures { option_map driver_view result ≡ garble_of_values (value_in (found_of matches.now)) }
{
    let driver = Driver::Garble {
        garbler: value(matches, OptionName::Garbler),
        seed: value(matches, OptionName::Seed)?,
        stream: value(matches, OptionName::Stream)?,
    };
    unless_given(
        matches,
        &[OptionName::Evaluator, OptionName::Labels],
        driver,
    )
}

#[tactic(auto, unfolding(crate::specs::Words::eval_of_values))]
fn eval_of<'a>(matches: &ArgMatches<'a>) -> Option<Driver<'a>>
    ensures { option_map driver_view result ≡ eval_of_values (value_in (found_of matches.now)) }
{
    let driver = Driver::Eval {
        stream: value(matches, OptionName::Stream)?,
        labels: value(matches, OptionName::Labels)?,
    };
    unless_given(
        matches,
        &[OptionName::Garbler, OptionName::Evaluator, OptionName::Seed],
        driver,
    )
}

/// What the values of the options ask the driver of this name for, where none belongs to another driver.
pub fn driver_of<'a>(name: DriverName, matches: &ArgMatches<'a>) -> Option<Driver<'a>>
    ensures { option_map driver_view result
        ≡ driver_of_values (value_in (found_of matches.now)) name }
{
    match name {
        DriverName::Plain => plain_of(matches),
        DriverName::Garble => garble_of(matches),
        DriverName::Eval => eval_of(matches),
    }
}
