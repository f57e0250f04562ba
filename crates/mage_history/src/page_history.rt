// The transfers that were made, which only clauses read.
ghost use Rattle.std.specs.Prelude.{◌≡◌, List, [], ◌∷◌, ◌++◌};
ghost use Rattle.std.specs.Borrow.{ftrue};
ghost use Rattle.mage_base.specs.Store.{Transfer, Wrote, Answered};

use std::marker::{Model, PhantomData};

/// The transfers that were made so far, in order. It takes no bytes, and its calls do nothing when the program runs: so a
/// port can say what passed through it without keeping it. What is noted is tied to what happened by whoever keeps it.
#[derive(Drop)]
pub struct PageHistory {
    marker: PhantomData<u8>,
    pub ghost transfers: { List Transfer },
}

impl Model for PageHistory {
    ghost also_owns = { λ _. ftrue };
}

impl PageHistory {
    /// No transfer yet.
    pub fn new() -> PageHistory
        ensures { result.transfers ≡ [] }
    {
        PageHistory {
            marker: PhantomData,
        }
    }

    /// A page was read, and these bytes came.
    pub fn note_read(&mut self, _page: &u32, _bytes: &[u8])
        ensures { self.new.transfers ≡ self.old.transfers ++ Answered _page.now _bytes.now ∷ [] }
    {}

    /// These bytes were written to a page.
    pub fn note_write(&mut self, _page: &u32, _bytes: &[u8])
        ensures { self.new.transfers ≡ self.old.transfers ++ Wrote _page.now _bytes.now ∷ [] }
    {}
}

unsafe impl Send for PageHistory {}

unsafe impl Sync for PageHistory {}
