// A source over a file.
ghost use Rattle.std.specs.Prelude.{◌≡◌, IfOk};
ghost use Rattle.mage_outside.specs.Untold.{untold_source};

use crate::reading::read_some;
use mage_base::{Failed, Memory, Source};
use std::alloc::Global;
use std::io::{BufReader, Read};

/// A file that is read in order, through a buffer. It tells nothing of what is left.
#[derive(Drop)]
pub struct FileSource<F: Read + Drop> {
    reader: BufReader<F, Global>,
    faults: u64,
}

impl<F: Read + Drop> FileSource<F> {
    /// A source of what the file has from where it stands. `Memory` where there is none for the buffer.
    pub fn make(alloc: Global, file: F) -> Result<FileSource<F>, Memory>
        ensures { IfOk result (λ source. source.faults ≡ 0) }
    {
        match BufReader::new(alloc, file) {
            Ok(reader) => Ok(FileSource { reader, faults: 0 }),
            Err(_) => Err(Memory),
        }
    }

    /// How often it has failed.
    pub fn faults(&self) -> u64
        ensures { result ≡ self.now.faults }
    {
        self.faults
    }
}

impl<F: Read + Drop> Source for FileSource<F> {
    ghost tells = { λ source. untold_source source.faults };

    fn take(&mut self, into: &mut [u8]) -> Result<usize, Failed> {
        match read_some(&mut self.reader, into) {
            Ok(count) => Ok(count),
            Err(_) => {
                self.faults = self.faults.saturating_add(1);
                Err(Failed)
            }
        }
    }
}
