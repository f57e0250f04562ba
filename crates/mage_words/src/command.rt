// The table of commands.
ghost use Rattle.std.specs.Prelude.{◌≡◌, Some};
ghost use Rattle.mage_words.specs.Commands.{command_named, command_rule, command_view};

use crate::option::OptionName;

/// The commands.
#[derive(Clone, Copy, Debug, PartialEq, Eq)]
pub enum CommandName {
    Solo,
    Stats,
    Deal,
    Plan,
    Check,
    Upgrade,
    Gen,
}

/// One row of the table: the command's word, and the options that it takes.
#[derive(Clone, Copy)]
pub struct CommandRule {
    pub name: &'static str,
    pub options: &'static [OptionName],
}

const COMMANDS: [CommandName; 7] = [
    CommandName::Solo,
    CommandName::Stats,
    CommandName::Deal,
    CommandName::Plan,
    CommandName::Check,
    CommandName::Upgrade,
    CommandName::Gen,
];

const SOLO: [OptionName; 11] = [
    OptionName::Source,
    OptionName::Driver,
    OptionName::Garbler,
    OptionName::Evaluator,
    OptionName::Seed,
    OptionName::Stream,
    OptionName::Labels,
    OptionName::Page,
    OptionName::Frames,
    OptionName::Buffer,
    OptionName::Ahead,
];

const STATS: [OptionName; 5] = [
    OptionName::Source,
    OptionName::Page,
    OptionName::Frames,
    OptionName::Buffer,
    OptionName::Ahead,
];

const DEAL: [OptionName; 4] = [
    OptionName::Source,
    OptionName::Evaluator,
    OptionName::Seed,
    OptionName::Labels,
];

const PLAN: [OptionName; 6] = [
    OptionName::Source,
    OptionName::Out,
    OptionName::Page,
    OptionName::Frames,
    OptionName::Buffer,
    OptionName::Ahead,
];

const CHECK: [OptionName; 2] = [OptionName::Source, OptionName::Program];

const UPGRADE: [OptionName; 2] = [OptionName::Program, OptionName::Out];

const GEN: [OptionName; 9] = [
    OptionName::Items,
    OptionName::Rows,
    OptionName::Workers,
    OptionName::Number,
    OptionName::Out,
    OptionName::Page,
    OptionName::Frames,
    OptionName::Buffer,
    OptionName::Ahead,
];

/// The row of a command. Its word names it, and no other command.
pub fn command_rule(command: CommandName) -> CommandRule
    ensures row { command_view result ≡ command_rule command }
    ensures named { command_named (command_rule command).name ≡ Some command }
{
    match command {
        CommandName::Solo => CommandRule {
            name: "solo",
            options: &SOLO,
        },
        CommandName::Stats => CommandRule {
            name: "stats",
            options: &STATS,
        },
        CommandName::Deal => CommandRule {
            name: "deal",
            options: &DEAL,
        },
        CommandName::Plan => CommandRule {
            name: "plan",
            options: &PLAN,
        },
        CommandName::Check => CommandRule {
            name: "check",
            options: &CHECK,
        },
        CommandName::Upgrade => CommandRule {
            name: "upgrade",
            options: &UPGRADE,
        },
        CommandName::Gen => CommandRule {
            name: "gen",
            options: &GEN,
        },
    }
}

/// The command that the word names.
pub fn command_named(word: &str) -> Option<CommandName>
    ensures { result ≡ command_named word.now }
{
    COMMANDS
        .iter()
        .copied()
        .find(|command| command_rule(*command).name == word)
}
