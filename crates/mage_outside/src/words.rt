// The words of the command line.
use std::env::{self, Env};
use std::io::ErrorKind;
use thiserror::Error;

#[cfg(test)]
mod tests;

/// Why there are no words.
#[derive(Clone, Copy, Debug, PartialEq, Eq, Error)]
pub enum NoWords {
    /// A word isn't text.
    #[error("a word isn't text")]
    NotText,
    /// There was no memory for the words.
    #[error("no memory")]
    Memory,
}

/// The words behind the program's name.
pub fn command_words<R: Env + AllocGlobal>(rt: &R) -> Result<Vec<String>, NoWords> {
    match env::args(rt) {
        Ok(words) => words
            .skip(1)
            .collect(rt.alloc())
            .map_err(|_| NoWords::Memory),
        Err(error) if error.kind() == ErrorKind::OutOfMemory => Err(NoWords::Memory),
        Err(_) => Err(NoWords::NotText),
    }
}
