/// How a command ended, with its exit code.
#[derive(Clone, Copy, Debug, PartialEq, Eq)]
pub enum Status {
    /// It did what it is for.
    Ok = 0,
    /// The words aren't those of a command.
    Words = 2,
    /// The source isn't in the language.
    Language = 3,
    /// The limits are too tight for the program.
    Limits = 4,
    /// The memory program is faulty.
    MemoryProgram = 5,
    /// An input text isn't what the program needs.
    InputText = 6,
    /// The desk failed: a file that isn't there, or can't be read or written.
    Desk = 7,
    /// A store of pages failed.
    Store = 8,
    /// There was no memory.
    Memory = 9,
    /// A page came back damaged.
    Damaged = 10,
    /// A stream is short, long or of a wrong colour.
    Stream = 11,
    /// The memory program doesn't carry the source's program.
    CheckNo = 12,
}
