// Where bytes go.
ghost use Rattle.std.specs.Prelude.{◌≡◌, ◌≤◌, ◌+◌, length, IsTrue, IsOk, OnOk, IsNone};
ghost use Rattle.mage_base.specs.Faults.{Counted};
ghost use Rattle.mage_base.specs.Sink.{SinkTold, Puts};

use crate::Failed;

/// Takes bytes in order.
pub trait Sink {
    ghost tells: { Self → SinkTold };

    /// Takes all of the bytes. After `Failed` it has taken a front of them. What isn't told stays untold.
    fn put(&mut self, bytes: &[u8]) -> Result<(), Failed>
        ensures puts { Puts result (tells self.old).taken bytes.now (tells self.new).taken }
        ensures untold { IsNone (tells self.old).taken → IsNone (tells self.new).taken }
        ensures cause { Counted (tells self.old).faults (tells self.new).faults result }
        ensures steady { IsTrue (tells self.old).steady
            → length bytes.now ≤ (tells self.old).room → IsOk result }
        ensures room { IsTrue (tells self.old).steady
            → OnOk result ((tells self.new).room + length bytes.now ≡ (tells self.old).room) }
        ensures rest { tells self.new ≡ record (tells self.old) {
          taken = (tells self.new).taken;
          faults = (tells self.new).faults;
          room = (tells self.new).room;
        } };
}
