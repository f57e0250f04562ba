// A store over a file.
ghost use Rattle.std.specs.Prelude.{◌≡◌};
ghost use Rattle.mage_outside.specs.Untold.{untold_store};

use crate::reading::read_page;
use mage_base::{Failed, Store, StoreCounts};
use std::io::{self, Read, Seek, SeekFrom, Write};

#[cfg(test)]
mod tests;

/// Pages in a file: page p is at byte p times the page length. It tells nothing of what they hold.
#[derive(Drop)]
pub struct FileStore<F: Read + Write + Seek + Drop> {
    file: F,
    name: String,
    page_bytes: u32,
    reads: u64,
    writes: u64,
    faults: u64,
}

impl<F: Read + Write + Seek + Drop> FileStore<F> {
    /// A store in the file with this name, which is empty yet.
    pub fn new(file: F, name: String, page_bytes: u32) -> FileStore<F>
        ensures { result ≡ record { file = file; name = name; page_bytes = page_bytes; reads = 0; writes = 0; faults = 0 } }
    {
        FileStore {
            file,
            name,
            page_bytes,
            reads: 0,
            writes: 0,
            faults: 0,
        }
    }

    /// Closes the file, and answers its name.
    pub fn close(self) -> String
        ensures { result ≡ self.name }
    {
        let FileStore {
            file,
            name,
            page_bytes: _,
            reads: _,
            writes: _,
            faults: _,
        } = self;
        drop(file);
        name
    }

    /// How many pages were read and written, and how often a call failed.
    pub fn counts(&self) -> StoreCounts
        ensures { result ≡ record { reads = self.now.reads; writes = self.now.writes; faults = self.now.faults } }
    {
        StoreCounts {
            reads: self.reads,
            writes: self.writes,
            faults: self.faults,
        }
    }
}

// Goes to where a page begins.
fn seek_page<F: Seek>(file: &mut F, page: u32, page_bytes: u32) -> io::Result<()> {
    file.seek(SeekFrom::Start(page as u64 * page_bytes as u64))?;
    Ok(())
}

fn read_at<F: Read + Seek>(
    file: &mut F,
    page: u32,
    page_bytes: u32,
    into: &mut [u8],
) -> io::Result<()> {
    seek_page(file, page, page_bytes)?;
    read_page(file, into)
}

fn write_at<F: Write + Seek>(
    file: &mut F,
    page: u32,
    page_bytes: u32,
    from: &[u8],
) -> io::Result<()> {
    seek_page(file, page, page_bytes)?;
    file.write_all(from)?;
    file.flush()
}

impl<F: Read + Write + Seek + Drop> Store for FileStore<F> {
    ghost tells = { λ store. untold_store store.page_bytes store.reads store.writes store.faults };

    fn read(&mut self, page: u32, into: &mut [u8]) -> Result<(), Failed> {
        if self.reads == u64::MAX || read_at(&mut self.file, page, self.page_bytes, into).is_err() {
            self.faults = self.faults.saturating_add(1);
            return Err(Failed);
        }
        self.reads += 1;
        Ok(())
    }

    fn write(&mut self, page: u32, from: &[u8]) -> Result<(), Failed> {
        if self.writes == u64::MAX
            || write_at(&mut self.file, page, self.page_bytes, from).is_err()
        {
            self.faults = self.faults.saturating_add(1);
            return Err(Failed);
        }
        self.writes += 1;
        Ok(())
    }
}
