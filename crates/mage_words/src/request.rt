// What commands are asked for.
use mage_instr::Limits;

/// What runs the circuits of `solo`, with the files of its own.
#[derive(Clone, Copy)]
pub enum Driver<'a> {
    /// Each wire is its bit. An input text that has no file is empty.
    Plain {
        /// The file of the garbler's input text.
        garbler: Option<&'a str>,
        /// The file of the evaluator's input text.
        evaluator: Option<&'a str>,
    },
    /// The garbler: each wire is its zero label.
    Garble {
        /// The file of the garbler's input text. Without one the text is empty.
        garbler: Option<&'a str>,
        /// The file of the seed.
        seed: &'a str,
        /// What the names of the stream files begin with, which are written.
        stream: &'a str,
    },
    /// The evaluator: each wire is its active label.
    Eval {
        /// What the names of the stream files begin with, which are read.
        stream: &'a str,
        /// What the names of the label files begin with, which are read.
        labels: &'a str,
    },
}

/// What a command is asked for.
#[derive(Clone, Copy)]
pub enum Request<'a> {
    /// To evaluate a source.
    Solo(Solo<'a>),
    /// To say what a plan for a source costs.
    Stats(Stats<'a>),
    /// To write the labels that the evaluator's inputs have.
    Deal(Deal<'a>),
    /// To write the memory program of a source.
    Plan(Plan<'a>),
    /// To say whether a memory program carries a source.
    Check(Check<'a>),
    /// To write a memory program of version 1 in version 2.
    Upgrade(Upgrade<'a>),
    /// To write a source of a given size, its input texts and its memory program.
    Gen(Gen<'a>),
}

/// What `solo` is asked for.
#[derive(Clone, Copy)]
pub struct Solo<'a> {
    /// The file of the source.
    pub source: &'a str,
    pub driver: Driver<'a>,
    pub limits: Limits,
}

/// What `stats` is asked for.
#[derive(Clone, Copy)]
pub struct Stats<'a> {
    /// The file of the source.
    pub source: &'a str,
    pub limits: Limits,
}

/// What `deal` is asked for.
#[derive(Clone, Copy)]
pub struct Deal<'a> {
    /// The file of the source.
    pub source: &'a str,
    /// The file of the evaluator's input text. Without one the text is empty.
    pub evaluator: Option<&'a str>,
    /// The file of the seed.
    pub seed: &'a str,
    /// What the names of the label files begin with.
    pub labels: &'a str,
}

/// What `plan` is asked for.
#[derive(Clone, Copy)]
pub struct Plan<'a> {
    /// The file of the source.
    pub source: &'a str,
    /// The file that the memory program is written to.
    pub out: &'a str,
    pub limits: Limits,
}

/// What `check` is asked for.
#[derive(Clone, Copy)]
pub struct Check<'a> {
    /// The file of the source.
    pub source: &'a str,
    /// The file of the memory program.
    pub program: &'a str,
}

/// What `upgrade` is asked for.
#[derive(Clone, Copy)]
pub struct Upgrade<'a> {
    /// The file of the memory program of version 1.
    pub program: &'a str,
    /// The file that the memory program of version 2 is written to.
    pub out: &'a str,
}

/// What `gen` is asked for.
#[derive(Clone, Copy)]
pub struct Gen<'a> {
    /// How many items each worker has: 1 to 65,536.
    pub items: u32,
    /// How many rows: 1 to 1,024.
    pub rows: u32,
    /// How many workers: 1 to 16.
    pub workers: u16,
    /// The number that the input values are made of.
    pub number: u32,
    /// What the names of the files begin with.
    pub out: &'a str,
    pub limits: Limits,
}
