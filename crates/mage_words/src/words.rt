// What words ask for.
ghost use Rattle.std.specs.Prelude.{◌≡◌, IfOk};
ghost use Rattle.mage_words.specs.Words.{LimitsAreInRange, NumbersAreInRange, bytes_of_words, command_in, request_of};
ghost use Rattle.mage_words.specs.Answers.{request_view, Reads};

use crate::WordsFault;
use crate::asked::asked_of;
use crate::command::{CommandName, command_named, command_rule};
use crate::matches::matches_of;
use crate::pairs::are_pairs;
use crate::request::Request;
use std::alloc::Global;

// The command that the first word names, where pairs stand behind it.
fn command_in(words: &[String]) -> Option<CommandName>
    ensures { result ≡ command_in (bytes_of_words words.now) }
{
    let (word, rest) = words.split_first()?;
    if are_pairs(rest) {
        command_named(word.as_str())
    } else {
        None
    }
}

// What the words ask for.
fn asked<'a>(alloc: Global, words: &'a [String]) -> Result<Request<'a>, WordsFault>
    ensures { Reads request_view (request_of (bytes_of_words words.now)) result }
{
    let Some(command) = command_in(words) else {
        return Err(WordsFault::Words);
    };
    let rule = command_rule(command);
    let name: &'a str = rule.name;
    let matches = matches_of(alloc, name, rule.options, words)?;
    asked_of(command, &matches).ok_or(WordsFault::Words)
}

/// What words ask for: the first word names a command, and the rest are pairs of an option's word and its value, in any
/// order.
///
/// An option's word is two dashes and its name. A value isn't empty and doesn't begin with a dash. A number is 1 to 20
/// decimal digits, leading zeros allowed. The commands and their options are those of the table of commands; ranges
/// and defaults are those of the table of options; frames and buffer hold at most 4,194,304 wires together. `solo` takes the
/// options of its driver alone, and has those that the driver needs. `Words`
/// comes exactly where the words aren't so, unless `Memory` comes first, of which no clause says when it comes.
pub fn read_words(alloc: Global, words: &[String]) -> Result<Request<'_>, WordsFault>
    ensures asked { Reads request_view (request_of (bytes_of_words words.now)) result }
    ensures in_range { IfOk result (λ request. LimitsAreInRange (request_view request)) }
    ensures numbers { IfOk result (λ request. NumbersAreInRange (request_view request)) }
{
    asked(alloc, words)
}
