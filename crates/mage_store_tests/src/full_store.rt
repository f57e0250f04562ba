// A store whose counts of reads and writes stand at their greatest value, so that it can count no
// more.
ghost use Rattle.std.specs.Prelude.{None, true};
ghost use Rattle.mage_base.specs.Faults.{top};

use mage_base::{Failed, Store};

/// Pages of three bytes, of which none can be read or written any more.
#[derive(Drop)]
pub struct FullStore {
    pub faults: u64,
}

impl Store for FullStore {
    ghost tells = { λ store. record {
      page_bytes = 3;
      pages = None;
      reads = top;
      writes = top;
      faults = store.faults;
      log = None;
      steady = true;
      page_count = 1;
    } };

    fn read(&mut self, _page: u32, _into: &mut [u8]) -> Result<(), Failed> {
        self.faults = self.faults.saturating_add(1);
        Err(Failed)
    }

    fn write(&mut self, _page: u32, _from: &[u8]) -> Result<(), Failed> {
        self.faults = self.faults.saturating_add(1);
        Err(Failed)
    }
}
