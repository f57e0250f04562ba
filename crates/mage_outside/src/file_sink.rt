// A sink over a file.
ghost use Rattle.std.specs.Prelude.{◌≡◌, IfOk};
ghost use Rattle.mage_outside.specs.Untold.{untold_sink};

use mage_base::{Failed, Memory, Sink};
use std::alloc::Global;
use std::io::{self, BufWriter, Write};

/// A file that is written in order, through a buffer. It tells nothing of what it has taken, and has no room of its own.
#[derive(Drop)]
pub struct FileSink<F: Write + Drop> {
    writer: BufWriter<F, Global>,
    faults: u64,
}

impl<F: Write + Drop> FileSink<F> {
    /// A sink that writes to the file from where it stands. `Memory` where there is none for the buffer.
    pub fn make(alloc: Global, file: F) -> Result<FileSink<F>, Memory>
        ensures { IfOk result (λ sink. sink.faults ≡ 0) }
    {
        match BufWriter::new(alloc, file) {
            Ok(writer) => Ok(FileSink { writer, faults: 0 }),
            Err(_) => Err(Memory),
        }
    }

    /// How often it has failed.
    pub fn faults(&self) -> u64
        ensures { result ≡ self.now.faults }
    {
        self.faults
    }

    /// Writes what the buffer still holds. After an error the file has a front of what was put.
    pub fn flush(&mut self) -> io::Result<()>
        ensures { self.new.faults ≡ self.old.faults }
    {
        self.writer.flush()
    }
}

impl<F: Write + Drop> Sink for FileSink<F> {
    ghost tells = { λ sink. untold_sink sink.faults };

    fn put(&mut self, bytes: &[u8]) -> Result<(), Failed> {
        match self.writer.write_all(bytes) {
            Ok(()) => Ok(()),
            Err(_) => {
                self.faults = self.faults.saturating_add(1);
                Err(Failed)
            }
        }
    }
}
