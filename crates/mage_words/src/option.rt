/// The options of the commands.
#[derive(Clone, Copy, Debug, PartialEq, Eq)]
pub enum OptionName {
    Source,
    Driver,
    Garbler,
    Evaluator,
    Seed,
    Stream,
    Labels,
    Page,
    Frames,
    Buffer,
    Ahead,
    Program,
    Out,
    Items,
    Rows,
    Workers,
    Number,
}

/// What the value of an option has to be.
#[derive(Clone, Copy, Debug, PartialEq, Eq)]
pub enum Kind {
    /// The name of a file, or what the names of files begin with.
    File,
    /// What runs the circuits: `plain`, `garble` or `eval`.
    Driver,
    /// A number in a range.
    Number { least: u32, most: u32 },
    /// A power of two in a range.
    PowerOfTwo { least: u32, most: u32 },
}

/// What stands for an option that isn't given.
#[derive(Clone, Copy)]
pub enum Absence {
    /// Nothing: it has to be given.
    Required,
    /// Nothing is needed, unless the command or its driver asks for it.
    Optional,
    /// This value.
    Default(&'static str),
}

/// One row of the table. The name is the option's word without the two dashes in front.
#[derive(Clone, Copy)]
pub struct OptionRule {
    pub name: &'static str,
    pub kind: Kind,
    pub absence: Absence,
}
