// The calls of an object in memory, of which some are to fail.
ghost use Rattle.std.specs.Prelude.{◌≡◌, IfOk, IsTrue, false};
ghost use Rattle.mage_base.specs.Calls.{no_call_yet, is_listed, after_call, is_empty};

use crate::{Items, Memory};
use std::alloc::Global;

/// How many calls were made, and the numbers, from 0, of those that are to fail.
#[derive(Drop)]
pub(crate) struct Calls {
    failing: Items<u64>,
    made: u64,
}

impl Calls {
    pub(crate) fn make(alloc: Global, failing: &[u64]) -> Result<Calls, Memory>
        ensures { IfOk result (λ calls. calls ≡ no_call_yet failing.now) }
    {
        Ok(Calls {
            failing: Items::from_slice(alloc, failing)?,
            made: 0,
        })
    }

    /// Counts one more call, and tells whether it is to fail.
    pub(crate) fn begin(&mut self) -> bool
        ensures listed { result ≡ is_listed self.old }
        ensures none { IsTrue (is_empty self.old.failing) → result ≡ false }
        ensures after { self.new ≡ after_call self.old }
    {
        let listed = self.failing.as_slice().contains(&self.made);
        self.made = self.made.saturating_add(1);
        listed
    }
}
