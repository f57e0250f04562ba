ghost use Rattle.std.specs.Prelude.{◌≡◌, slice_get, true};
ghost use Rattle.mage_verify.specs.Leaving.{leaves_at, leaves_of, is_issue_out};
ghost use Rattle.mage_verify.specs.Runs.{IsSafe, Runs};

use mage_instr::{Directive, Limits};
use sqlite_items::Items;
use std::marker::Model;

/// What one worker does, within limits, where it has no fault by itself.
///
/// Each directive names frames, slots and store pages that are there, its values end within their pages, and its slot does
/// what it asks for (`directives`).
#[derive(Debug, Drop)]
pub struct Part {
    worker: u16,
    limits: Limits,
    pages: u32,
    directives: Items<Directive>,
    // Of each directive, whether it is the issue of a write that leaves its frame.
    leaves: Vec<bool>,
}

impl Model for Part {
    ghost use Rattle.std.specs.Prelude.{◌≡◌};
    ghost use Rattle.mage_verify.specs.Leaving.{leaves_of};
    ghost use Rattle.mage_verify.specs.Parts.{WorkerPart};
    ghost use Rattle.mage_verify.specs.Runs.{IsSafe};

    ghost Value = { WorkerPart };

    ghost view = { λ part. record { worker = part.worker; limits = part.limits; pages = part.pages; directives = part.directives } };

    ghost invariant = { λ part. IsSafe (record { worker = part.worker; limits = part.limits; pages = part.pages; directives = part.directives }) × (part.leaves.items ≡ leaves_of part.directives) };
}

impl Part {
    pub(crate) fn from_fields(
        worker: u16,
        limits: Limits,
        pages: u32,
        directives: Items<Directive>,
        leaves: Vec<bool>,
    ) -> Part
        requires safe { IsSafe (record { worker = worker; limits = limits; pages = pages; directives = directives }) }
        requires leaves { leaves.items ≡ leaves_of directives }
        ensures { result ≡ record { worker = worker; limits = limits; pages = pages; directives = directives } }
    {
        Part {
            worker,
            limits,
            pages,
            directives,
            leaves,
        }
    }

    /// The number of the worker, from 0.
    pub fn worker(&self) -> u16
        ensures { result ≡ self.now.worker }
    {
        self.worker
    }

    /// The limits of the program.
    pub fn limits(&self) -> Limits
        ensures { result ≡ self.now.limits }
    {
        self.limits
    }

    /// How many pages the worker's store has.
    pub fn store_pages(&self) -> u32
        ensures { result ≡ self.now.pages }
    {
        self.pages
    }

    /// The directives in their order.
    ///
    /// Where each of them was done in turn, a directive that issues a slot finds it idle, its store page named by no slot in
    /// flight, and for a read written; one that finishes a slot finds it reading, or writing; and each index is in range.
    pub fn directives(&self) -> &[Directive]
        ensures value { result.now ≡ self.now.directives }
        ensures safe { IsSafe self.now }
        ensures runs { Runs self.now }
    {
        self.directives.as_slice()
    }

    /// Whether the issue of a write leaves its frame: the next directive that names the frame is a `Fresh` or a `FinishIn`,
    /// or none does. The directive at this index is an `IssueOut`.
    pub fn leaves(&self, directive: u32) -> bool
        requires { is_issue_out (slice_get self.now.directives directive) ≡ true }
        ensures { result ≡ leaves_at self.now.directives directive }
    {
        self.leaves[directive as usize]
    }
}
