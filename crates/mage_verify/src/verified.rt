ghost use Rattle.std.specs.Prelude.{◌≡◌, map};
ghost use Rattle.mage_verify.specs.Runs.{AreVerified, RunTogether};

use crate::Part;
use std::marker::Model;

/// The parts of a memory program without a fault, one for each worker in order.
#[derive(Debug, Drop)]
pub struct Verified {
    parts: Vec<Part>,
}

impl Model for Verified {
    ghost use Rattle.std.specs.Prelude.{List};
    ghost use Rattle.mage_verify.specs.Parts.{WorkerPart};
    ghost use Rattle.mage_verify.specs.Runs.{AreVerified};

    ghost Value = { List WorkerPart };

    ghost view = { λ verified. verified.parts.items };

    ghost invariant = { λ verified. AreVerified verified.parts.items };
}

impl Verified {
    pub(crate) fn from_parts(parts: Vec<Part>) -> Verified
        requires { AreVerified parts.items }
        ensures { result ≡ parts.items }
    {
        Verified { parts }
    }

    /// One part for each worker, in order. All together they run to their ends, and each value is received in the width in
    /// which it is sent.
    pub fn parts(self) -> Vec<Part>
        ensures parts { result.items ≡ self }
        ensures verified { AreVerified self }
        ensures together { RunTogether (map (λ part. part.directives) self) }
    {
        self.parts
    }
}
