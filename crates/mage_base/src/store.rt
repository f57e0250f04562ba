// Where pages are kept outside.
ghost use Rattle.std.specs.Prelude.{◌≡◌, ◌<◌, length, IsTrue, IsOk};
ghost use Rattle.mage_base.specs.Faults.{Counted, top};
ghost use Rattle.mage_base.specs.Store.{StoreTold, Reads, Writes};

use crate::Failed;

/// Pages of one length, by their numbers. A page that was never written is zeros.
pub trait Store {
    ghost tells: { Self → StoreTold };

    /// Reads a page. After `Failed` nothing is said of `into`.
    fn read(&mut self, page: u32, into: &mut [u8]) -> Result<(), Failed>
        requires { length into.old ≡ (tells self.old).page_bytes }
        ensures reads { Reads (tells self.old) (tells self.new) page into.new result }
        ensures cause { Counted (tells self.old).faults (tells self.new).faults result }
        ensures steady { IsTrue (tells self.old).steady → page < (tells self.old).page_count
            → (tells self.old).reads < top → IsOk result };

    /// Writes a page. After `Failed` nothing is said of what this page holds, and every other page is as before.
    fn write(&mut self, page: u32, from: &[u8]) -> Result<(), Failed>
        requires { length from.now ≡ (tells self.old).page_bytes }
        ensures writes { Writes (tells self.old) (tells self.new) page from.now result }
        ensures cause { Counted (tells self.old).faults (tells self.new).faults result }
        ensures steady { IsTrue (tells self.old).steady → page < (tells self.old).page_count
            → (tells self.old).writes < top → IsOk result };
}
