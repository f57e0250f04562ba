// Why a command isn't done.
use mage_base::Damage;
use mage_instr::{Party, Tight};
use mage_lex::LangKind;

/// What is wrong with a memory program: its bytes, by the first fault in their order, with its offset from 0; or what its
/// directives do, by the first fault that the verifier finds, with the worker and its directive, both from 0.
#[derive(Clone, Copy, Debug, PartialEq, Eq)]
pub enum ProgramFault {
    /// The file is longer than a memory program may be.
    TooLong,
    /// The first field isn't that of a memory program.
    Magic,
    /// It is of another version.
    Version,
    /// The bytes end there.
    Short { at: u64 },
    /// The field there breaks its rule.
    Field { at: u64 },
    /// Bytes follow the last directive there.
    Extra { at: u64 },
    /// The directive names a frame, a slot, a store page or a wire that isn't there.
    Range { worker: u16, directive: u32 },
    /// The directive finds its slot in another state.
    SlotState { worker: u16, directive: u32 },
    /// The directive finds its store page in another state.
    PageState { worker: u16, directive: u32 },
    /// The directive receives another width than was sent.
    Width { worker: u16, directive: u32 },
    /// The worker waits at the directive for ever.
    Links { worker: u16, directive: u32 },
}

/// What is wrong with the stream of a worker, with its offset from 0.
#[derive(Clone, Copy, Debug, PartialEq, Eq)]
pub enum StreamFault {
    /// The stream ends there, and more is due.
    Short { at: u64 },
    /// Bytes stand there behind all that is due.
    Long { at: u64 },
    /// The byte there is no colour.
    Colour { at: u64 },
}

/// Why a command isn't done.
#[derive(Clone, Copy, Debug, PartialEq, Eq)]
pub enum Refusal {
    /// The words aren't those of a command.
    Words,
    /// The source isn't in the language: what is wrong, and where. Lines and columns count from 1, and a column
    /// counts bytes; 0 and 0 stand for the whole text.
    Language {
        kind: LangKind,
        line: u32,
        column: u32,
    },
    /// A limit is too low for the program of this worker.
    Limits {
        worker: u16,
        tight: Tight,
    },
    /// A line of a party's input text is bad, missing or too many. Lines count from 1.
    InputLine {
        party: Party,
        line: u64,
    },
    /// A party's input text is too long.
    InputTooLong {
        party: Party,
    },
    /// The file of the seed hasn't just 32 bytes.
    InputSeed,
    /// The label file of this worker hasn't just 16 bytes for each wire of its inputs of the evaluator.
    InputLabels {
        worker: u16,
    },
    /// The file of the memory program isn't one that can be run.
    MemoryProgram {
        fault: ProgramFault,
    },
    /// The memory program doesn't carry the source's program: the lowest worker that doesn't, and its first directive
    /// that breaks a rule, or the number of its directives where something is left over.
    CheckNo {
        worker: u16,
        directive: u32,
    },
    /// The store of this worker failed while the memory program ran.
    Store {
        worker: u16,
    },
    /// A page of this worker came back with another digest than it was written with.
    Damaged {
        worker: u16,
        damage: Damage,
    },
    /// The stream of this worker isn't one that its program can be evaluated over.
    Stream {
        worker: u16,
        fault: StreamFault,
    },
    /// The desk failed: a file that isn't there, or can't be read, or an answer that can't be said.
    Desk,
    /// There was no memory.
    Memory,
}
