// What `clap` decides: unknown names, repeats, required options and defaults.
ghost use Rattle.std.specs.Prelude.{◌≡◌, ◌≢◌, ◌<◌, length, ℕ, List, true, false, map, drop, Some, All, IfOk, IfErr, option_map};
ghost use Rattle.clap.specs.Words.{app_of, first_value, found_of, kind_of, rule_of as clap_rule_of};
ghost use Rattle.mage_words.specs.Options.{rule_of, rule_view};
ghost use Rattle.mage_words.specs.Words.{Pair, bytes_of_words, pairs_of, takes, value_of};
ghost use Rattle.mage_words.specs.Clap.{are_apart, clap_app, clap_rule};

use crate::WordsFault;
use crate::option::{Absence, OptionName, OptionRule};
use crate::table::rule_of;
use clap::error::ErrorKind;
use clap::{Arg, ArgMatches, Command, Error};
use std::alloc::{AllocError, Global};

// An option as `clap` takes it.
fn arg_of<'a>(alloc: Global, rule: OptionRule) -> Arg<'a>
    ensures rule { clap_rule_of result ≡ clap_rule (rule_view rule) }
    ensures global { result.global ≡ false }
{
    let arg = Arg::new(alloc, rule.name).long(rule.name);
    match rule.absence {
        Absence::Required => arg.required(true),
        Absence::Optional => arg,
        Absence::Default(value) => arg.default_value(value),
    }
}

// A command with these options.
fn command_of<'a>(
    alloc: Global,
    name: &'a str,
    options: &[OptionName],
) -> Result<Command<'a>, AllocError>
    ensures { IfOk result (λ command.
        app_of command ≡ clap_app name.now (map rule_of options.now)) }
{
    let mut command = Command::new(alloc, name).disable_help_flag(true);
    for option in options {
        command = command.arg(arg_of(alloc, rule_of(*option)))?;
    }
    Ok(command)
}

// What an error of `clap` comes to.
fn fault_of(error: Error) -> WordsFault
    ensures words { result ≡ WordsFault.Words → kind_of error ≢ ErrorKind.OutOfMemory }
    ensures memory { result ≡ WordsFault.Memory → kind_of error ≡ ErrorKind.OutOfMemory }
{
    match error.kind() {
        ErrorKind::OutOfMemory => WordsFault::Memory,
        _ => WordsFault::Words,
    }
}

/// The values of a command's options, given or by default, where it takes the pairs that stand behind the first word.
pub fn matches_of<'a>(
    alloc: Global,
    name: &'a str,
    options: &[OptionName],
    words: &'a [String],
) -> Result<ArgMatches<'a>, WordsFault>
    requires apart { are_apart (map rule_of options.now) ≡ true }
    requires command { 0 < length words.now }
    ensures taken { IfOk result (λ _. (pairs : List Pair)
        → pairs_of (drop 1 (bytes_of_words words.now)) ≡ Some pairs
        → takes (map rule_of options.now) pairs ≡ true) }
    ensures values { IfOk result (λ matches. (pairs : List Pair)
        → pairs_of (drop 1 (bytes_of_words words.now)) ≡ Some pairs
        → All (λ rule. first_value (found_of matches) rule.name ≡ value_of pairs rule)
        (map rule_of options.now)) }
    ensures refused { IfErr result (λ fault. (pairs : List Pair)
        → pairs_of (drop 1 (bytes_of_words words.now)) ≡ Some pairs
        → fault ≡ WordsFault.Words → takes (map rule_of options.now) pairs ≡ false) }
{
    let Ok(command) = command_of(alloc, name, options) else {
        return Err(WordsFault::Memory);
    };
    match command.try_get_matches_from(words) {
        Ok(matches) => Ok(matches),
        Err(error) => Err(fault_of(error)),
    }
}
