// Wires that passed, which only clauses read.
ghost use Rattle.std.specs.Prelude.{◌≡◌, ◌∷◌, ◌++◌, ℕ, List, []};
ghost use Rattle.std.specs.Borrow.{ftrue};

use std::marker::{Model, PhantomData};

/// The wires that passed so far, the oldest first. It takes no bytes, and its calls do nothing when
/// the program runs. What is noted is tied to what happened by whoever keeps it.
#[derive(Drop)]
pub struct WireHistory {
    marker: PhantomData<u8>,
    pub ghost wires: { List (List ℕ) },
}

impl Model for WireHistory {
    ghost also_owns = { λ _. ftrue };
}

impl WireHistory {
    /// No wire yet.
    pub fn new() -> WireHistory
        ensures { result.wires ≡ [] }
    {
        WireHistory {
            marker: PhantomData,
        }
    }

    /// A wire of these bytes passed.
    pub fn note(&mut self, _wire: &[u8])
        ensures { self.new.wires ≡ self.old.wires ++ _wire.now ∷ [] }
    {}
}

unsafe impl Send for WireHistory {}

unsafe impl Sync for WireHistory {}
