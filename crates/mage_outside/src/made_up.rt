// Made-up files and output for tests, whose calls do what a script says.
ghost use Rattle.std.specs.Prelude.{◌≤◌, IfOk};

use std::alloc::{AllocError, Allocator, Global};
use std::fmt::Display;
use std::fs::{Files, Metadata, OpenFile, OpenOptions};
use std::io::{self, ErrorKind, Read, Seek, SeekFrom, Write};

/// What a call on a file does.
#[derive(Clone, Copy)]
pub(crate) enum Step {
    /// It moves at most so many bytes.
    Moves(usize),
    Interrupted,
    Fails(ErrorKind),
}

/// A file whose first reads and writes do what these steps say. Behind them it moves what is asked.
#[derive(Drop)]
pub(crate) struct MadeUpFile {
    bytes: Vec<u8>,
    at: usize,
    steps: Vec<Step>,
    next: usize,
}

impl MadeUpFile {
    pub(crate) fn make(
        alloc: Global,
        bytes: &[u8],
        steps: &[Step],
    ) -> Result<MadeUpFile, AllocError> {
        Ok(MadeUpFile {
            bytes: Vec::from_slice(alloc, bytes)?,
            at: 0,
            steps: Vec::from_slice(alloc, steps)?,
            next: 0,
        })
    }

    // How many of so many bytes the next call moves.
    fn step(&mut self, asked: usize) -> io::Result<usize>
        ensures { IfOk result (λ count. count ≤ asked) }
    {
        let Some(step) = self.steps.get(self.next).copied() else {
            return Ok(asked);
        };
        self.next = self.next.saturating_add(1);
        match step {
            Step::Moves(most) => Ok(asked.min(most)),
            Step::Interrupted => Err(io::Error::from(ErrorKind::Interrupted)),
            Step::Fails(kind) => Err(io::Error::from(kind)),
        }
    }
}

// Writes the bytes over what a file has at a place. A gap is filled with zeros.
fn write_over(file: &mut Vec<u8>, at: usize, bytes: &[u8]) -> Result<(), AllocError> {
    if file.len() < at {
        file.resize(at, 0)?;
    }
    for (index, byte) in bytes.iter().enumerate() {
        match file.get_mut(at.saturating_add(index)) {
            Some(held) => *held = *byte,
            None => file.push(*byte)?,
        }
    }
    Ok(())
}

impl Read for MadeUpFile {
    fn read(&mut self, buf: &mut [u8]) -> io::Result<usize> {
        let most = self.step(buf.len())?;
        let from = self.at.min(self.bytes.len());
        let count = most.min(self.bytes.len() - from);
        buf[..count].copy_from_slice(&self.bytes[from..from + count]);
        self.at = from + count;
        Ok(count)
    }
}

impl Write for MadeUpFile {
    fn write(&mut self, buf: &[u8]) -> io::Result<usize> {
        let count = self.step(buf.len())?;
        write_over(&mut self.bytes, self.at, &buf[..count])?;
        self.at = self.at.saturating_add(count);
        Ok(count)
    }

    fn flush(&mut self) -> io::Result<()> {
        Ok(())
    }
}

fn unsupported() -> io::Error {
    io::Error::from(ErrorKind::Unsupported)
}

impl Seek for MadeUpFile {
    fn seek(&mut self, to: SeekFrom) -> io::Result<u64> {
        match to {
            SeekFrom::Start(at) => {
                self.at = at as usize;
                Ok(at)
            }
            _ => Err(unsupported()),
        }
    }
}

impl OpenFile for MadeUpFile {
    fn metadata(&self) -> io::Result<Metadata> {
        Err(unsupported())
    }

    fn set_len(&self, _size: u64) -> io::Result<()> {
        Err(unsupported())
    }

    fn sync_all(&self) -> io::Result<()> {
        Err(unsupported())
    }

    fn sync_data(&self) -> io::Result<()> {
        Err(unsupported())
    }
}

/// Files by their names: `short` and `broken` are read in pieces, `broken` fails after the first, a `full` one can't be
/// written, a `folder` can be opened and not read, and for `large` there is no memory. No other name has one.
#[derive(Drop)]
pub(crate) struct MadeUpFiles {
    pub(crate) alloc: Global,
    /// Whether what is printed has a reader.
    pub(crate) is_open: bool,
}

impl MadeUpFiles {
    fn file(&self, steps: &[Step]) -> io::Result<MadeUpFile> {
        Ok(MadeUpFile::make(self.alloc, b"abcde", steps)?)
    }
}

impl Files for MadeUpFiles {
    type File = MadeUpFile;

    type Dir = MadeUpFile;

    fn open_file(&self, how: &OpenOptions, path: &str) -> io::Result<MadeUpFile> {
        if path == "short" {
            return self.file(&[Step::Moves(2), Step::Interrupted, Step::Moves(1)]);
        }
        if path == "broken" {
            return self.file(&[Step::Moves(2), Step::Fails(ErrorKind::Other)]);
        }
        if path == "full" {
            return self.file(&[Step::Fails(ErrorKind::StorageFull)]);
        }
        if path == "folder" && !how.asks_write() {
            return self.file(&[Step::Fails(ErrorKind::IsADirectory)]);
        }
        let large = path == "large";
        let kind = if large {
            ErrorKind::OutOfMemory
        } else {
            ErrorKind::NotFound
        };
        Err(io::Error::from(kind))
    }

    fn open_dir(&self, _path: &str) -> io::Result<MadeUpFile> {
        Err(unsupported())
    }

    fn metadata(&self, _path: &str) -> io::Result<Metadata> {
        Err(unsupported())
    }

    fn symlink_metadata(&self, _path: &str) -> io::Result<Metadata> {
        Err(unsupported())
    }

    fn copy(&self, _from: &str, _to: &str) -> io::Result<u64> {
        Err(unsupported())
    }

    fn rename(&self, _from: &str, _to: &str) -> io::Result<()> {
        Err(unsupported())
    }

    fn remove_file(&self, _path: &str) -> io::Result<()> {
        Err(unsupported())
    }

    fn create_dir(&self, _path: &str) -> io::Result<()> {
        Err(unsupported())
    }

    fn remove_dir(&self, _path: &str) -> io::Result<()> {
        Err(unsupported())
    }

    fn remove_dir_all<B: Allocator>(&self, _alloc: B, _path: &str) -> io::Result<()> {
        Err(unsupported())
    }
}

impl Print for MadeUpFiles {
    fn print<D: Display + Drop>(&self, _value: D) -> io::Result<()> {
        Err(unsupported())
    }

    fn println<D: Display + Drop>(&self, _value: D) -> io::Result<()> {
        Err(unsupported())
    }

    fn write_all(&self, _bytes: &[u8]) -> io::Result<()> {
        if self.is_open {
            Ok(())
        } else {
            Err(io::Error::from(ErrorKind::BrokenPipe))
        }
    }
}
