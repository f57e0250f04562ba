// The table of options.
ghost use Rattle.std.specs.Prelude.{◌≡◌};
ghost use Rattle.mage_words.specs.Options.{rule_of, rule_view};

use crate::option::{Absence, Kind, OptionName, OptionRule};

// The wires of the shortest page.
const SHORTEST_PAGE: u32 = 64;

// The wires of the longest page.
const LONGEST_PAGE: u32 = 65_536;

// A page is a power of two of wires.
const PAGE: Kind = Kind::PowerOfTwo {
    least: SHORTEST_PAGE,
    most: LONGEST_PAGE,
};

// The most frames in memory.
const MOST_FRAMES: u32 = 65_536;

// The most slots of the buffer.
const MOST_SLOTS: u32 = 4_096;

// The most instructions ahead of its need that a page may be read.
const MOST_AHEAD: u32 = 1_000_000;

// The most items of a generated source.
const MOST_ITEMS: u32 = 65_536;

// The most rows of a generated source.
const MOST_ROWS: u32 = 1_024;

// The most workers of a generated source.
const MOST_GEN_WORKERS: u32 = 16;

// A number in this range.
fn number(least: u32, most: u32) -> Kind
    ensures { result ≡ Kind.Number least most }
{
    Kind::Number { least, most }
}

/// The row of an option.
pub fn rule_of(option: OptionName) -> OptionRule
    ensures { rule_view result ≡ rule_of option }
{
    let (name, kind, absence) = match option {
        OptionName::Source => ("source", Kind::File, Absence::Required),
        OptionName::Driver => ("driver", Kind::Driver, Absence::Default("plain")),
        OptionName::Garbler => ("garbler", Kind::File, Absence::Optional),
        OptionName::Evaluator => ("evaluator", Kind::File, Absence::Optional),
        OptionName::Seed => ("seed", Kind::File, Absence::Optional),
        OptionName::Stream => ("stream", Kind::File, Absence::Optional),
        OptionName::Labels => ("labels", Kind::File, Absence::Optional),
        OptionName::Page => ("page", PAGE, Absence::Default("256")),
        OptionName::Frames => ("frames", number(1, MOST_FRAMES), Absence::Default("64")),
        OptionName::Buffer => ("buffer", number(0, MOST_SLOTS), Absence::Default("8")),
        OptionName::Ahead => ("ahead", number(0, MOST_AHEAD), Absence::Default("64")),
        OptionName::Program => ("program", Kind::File, Absence::Required),
        OptionName::Out => ("out", Kind::File, Absence::Required),
        OptionName::Items => ("items", number(1, MOST_ITEMS), Absence::Required),
        OptionName::Rows => ("rows", number(1, MOST_ROWS), Absence::Default("1")),
        OptionName::Workers => (
            "workers",
            number(1, MOST_GEN_WORKERS),
            Absence::Default("1"),
        ),
        OptionName::Number => ("number", number(0, u32::MAX), Absence::Default("0")),
    };
    OptionRule {
        name,
        kind,
        absence,
    }
}
