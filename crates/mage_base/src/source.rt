// Where bytes come from.
ghost use Rattle.std.specs.Prelude.{◌≡◌, ◌≤◌, length, IsTrue, IfOk, IsOk, IsNone};
ghost use Rattle.mage_base.specs.Faults.{Counted};
ghost use Rattle.mage_base.specs.Source.{SourceTold, Takes};

use crate::Failed;

/// Bytes that are taken in order.
pub trait Source {
    ghost tells: { Self → SourceTold };

    /// Moves the next bytes into the front of `into`, and answers how many. Of the rest of `into` nothing is said.
    /// 0 for a piece that isn't empty means the end. After `Failed` nothing was taken. What isn't told stays untold.
    fn take(&mut self, into: &mut [u8]) -> Result<usize, Failed>
        ensures within { IfOk result (λ count. count ≤ length into.new) }
        ensures takes { Takes (tells self.old).left (tells self.new).left into.new result }
        ensures untold { IsNone (tells self.old).left → IsNone (tells self.new).left }
        ensures cause { Counted (tells self.old).faults (tells self.new).faults result }
        ensures steady { IsTrue (tells self.old).steady → IsOk result }
        ensures rest { tells self.new ≡ record (tells self.old) {
          left = (tells self.new).left;
          faults = (tells self.new).faults;
        } };
}
