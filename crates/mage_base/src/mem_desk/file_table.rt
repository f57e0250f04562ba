// The files of a desk in memory, by their names.
ghost use Rattle.std.specs.Prelude.{◌≡◌, [], OnOk, OnErr, IsSome};
ghost use Rattle.std.specs.Option.{option_copied};
ghost use Rattle.mage_base.specs.Desk.{with_file};
ghost use Rattle.mage_base.specs.MemDesk.{files_in};

use crate::Memory;
use std::alloc::Global;
use std::collections::BTreeMap;
use std::marker::Model;

/// The files of a desk in memory. Contracts see their names and bytes.
#[derive(Drop)]
pub(crate) struct FileTable {
    files: BTreeMap<String, Vec<u8>>,
}

impl Model for FileTable {
    ghost use Rattle.std.specs.Prelude.{List, ℕ, map, string_bytes};

    ghost Value = { List (List ℕ × List ℕ) };

    ghost view = { λ table. map (λ file. (string_bytes file.0, file.1.items)) table.files.entries };
}

impl FileTable {
    pub(crate) fn new(alloc: Global) -> FileTable
        ensures { result ≡ [] }
    {
        FileTable {
            files: BTreeMap::new(alloc),
        }
    }

    /// The bytes of the file with this name.
    pub(crate) fn find(&self, name: &str) -> Option<&[u8]>
        ensures { option_copied result ≡ files_in self.now name.now }
    {
        match self.files.get(name) {
            Some(bytes) => Some(bytes.as_slice()),
            None => None,
        }
    }

    /// Puts a file in, in place of one of that name.
    pub(crate) fn put(&mut self, alloc: Global, name: &str, bytes: &[u8]) -> Result<(), Memory>
        ensures ok { OnOk result
            (files_in self.new ≡ with_file (files_in self.old) name.now bytes.now) }
        ensures err { OnErr result (self.new ≡ self.old) }
    {
        let key = String::from_str(alloc, name)?;
        let value = Vec::from_slice(alloc, bytes)?;
        self.files.insert(key, value)?;
        Ok(())
    }

    /// Moves the bytes into the place of a file that is there. This takes no memory.
    pub(crate) fn replace(&mut self, name: &str, bytes: Vec<u8>)
        requires { IsSome (files_in self.old name.now) }
        ensures { files_in self.new ≡ with_file (files_in self.old) name.now bytes.items }
    {
        let Some(held) = self.files.get_mut(name) else {
            return;
        };
        *held = bytes;
    }
}
