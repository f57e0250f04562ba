// What the values of a command's options ask it for.
ghost use Rattle.std.specs.Prelude.{◌≡◌, option_map};
ghost use Rattle.clap.specs.Words.{found_of};
ghost use Rattle.mage_words.specs.Words.{asked_of, solo_of_values, stats_of_values, deal_of_values, plan_of_values, check_of_values, upgrade_of_values, gen_of_values, number};
ghost use Rattle.mage_words.specs.Answers.{request_view, solo_view, stats_view, deal_view, plan_view, check_view, upgrade_view, gen_view, value_in};

use crate::command::CommandName;
use crate::driver::driver_named;
use crate::driving::driver_of;
use crate::option::OptionName;
use crate::request::{Check, Deal, Gen, Plan, Request, Solo, Stats, Upgrade};
use crate::values::{limits, number, value};
use clap::ArgMatches;

#[tactic(auto, unfolding(crate::specs::Words::solo_of_values))]
fn solo_of<'a>(matches: &ArgMatches<'a>) -> Option<Solo<'a>>
    ensures { option_map solo_view result ≡ solo_of_values (value_in (found_of matches.now)) }
{
    let source = value(matches, OptionName::Source)?;
    let name = driver_named(value(matches, OptionName::Driver)?)?;
    let driver = driver_of(name, matches)?;
    Some(Solo {
        source,
        driver,
        limits: limits(matches)?,
    })
}

#[tactic(auto, unfolding(crate::specs::Words::stats_of_values))]
fn stats_of<'a>(matches: &ArgMatches<'a>) -> Option<Stats<'a>>
    ensures { option_map stats_view result ≡ stats_of_values (value_in (found_of matches.now)) }
{
    Some(Stats {
        source: value(matches, OptionName::Source)?,
        limits: limits(matches)?,
    })
}

#[tactic(auto, unfolding(crate::specs::Words::deal_of_values))]
fn deal_of<'a>(matches: &ArgMatches<'a>) -> Option<Deal<'a>>
    ensures { option_map deal_view result ≡ deal_of_values (value_in (found_of matches.now)) }
{
    let source = value(matches, OptionName::Source)?;
    let seed = value(matches, OptionName::Seed)?;
    let labels = value(matches, OptionName::Labels)?;
    Some(Deal {
        source,
        evaluator: value(matches, OptionName::Evaluator),
        seed,
        labels,
    })
}

#[tactic(auto, unfolding(crate::specs::Words::plan_of_values))]
fn plan_of<'a>(matches: &ArgMatches<'a>) -> Option<Plan<'a>>
    ensures { option_map plan_view result ≡ plan_of_values (value_in (found_of matches.now)) }
{
    let source = value(matches, OptionName::Source)?;
    let out = value(matches, OptionName::Out)?;
    let limits = limits(matches)?;
    Some(Plan {
        source,
        out,
        limits,
    })
}

#[tactic(auto, unfolding(crate::specs::Words::check_of_values))]
fn check_of<'a>(matches: &ArgMatches<'a>) -> Option<Check<'a>>
    ensures { option_map check_view result ≡ check_of_values (value_in (found_of matches.now)) }
{
    let source = value(matches, OptionName::Source)?;
    let program = value(matches, OptionName::Program)?;
    Some(Check { source, program })
}

#[tactic(auto, unfolding(crate::specs::Words::upgrade_of_values))]
fn upgrade_of<'a>(matches: &ArgMatches<'a>) -> Option<Upgrade<'a>>
    ensures { option_map upgrade_view result ≡ upgrade_of_values (value_in (found_of matches.now)) }
{
    let program = value(matches, OptionName::Program)?;
    Some(Upgrade {
        program,
        out: value(matches, OptionName::Out)?,
    })
}

// The workers of a generated source.
fn workers(matches: &ArgMatches<'_>) -> Option<u16>
    ensures { result ≡ number (value_in (found_of matches.now)) OptionName.Workers }
{
    u16::try_from(number(matches, OptionName::Workers)?).ok()
}

#[tactic(auto, unfolding(crate::specs::Words::gen_of_values))]
fn gen_of<'a>(matches: &ArgMatches<'a>) -> Option<Gen<'a>>
    ensures { option_map gen_view result ≡ gen_of_values (value_in (found_of matches.now)) }
{
    Some(Gen {
        items: number(matches, OptionName::Items)?,
        rows: number(matches, OptionName::Rows)?,
        workers: workers(matches)?,
        number: number(matches, OptionName::Number)?,
        out: value(matches, OptionName::Out)?,
        limits: limits(matches)?,
    })
}

/// What the values of the command's options ask it for.
pub fn asked_of<'a>(command: CommandName, matches: &ArgMatches<'a>) -> Option<Request<'a>>
    ensures { option_map request_view result ≡ asked_of command (value_in (found_of matches.now)) }
{
    match command {
        CommandName::Solo => Some(Request::Solo(solo_of(matches)?)),
        CommandName::Stats => Some(Request::Stats(stats_of(matches)?)),
        CommandName::Deal => Some(Request::Deal(deal_of(matches)?)),
        CommandName::Plan => Some(Request::Plan(plan_of(matches)?)),
        CommandName::Check => Some(Request::Check(check_of(matches)?)),
        CommandName::Upgrade => Some(Request::Upgrade(upgrade_of(matches)?)),
        CommandName::Gen => Some(Request::Gen(gen_of(matches)?)),
    }
}
