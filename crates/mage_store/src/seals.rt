// The digests of pages that were written.
ghost use Rattle.std.specs.Prelude.{◌≡◌, ◌==◌, ℕ, IfOk, IsSome, IfSome, is_some};
ghost use Rattle.std.specs.List.{list_any};
ghost use Rattle.mage_store.specs.Seals.{digest_of, with_digest};

use mage_base::Memory;
use std::alloc::Global;
use std::collections::BTreeMap;
use std::marker::Model;

/// A digest for each of some pages. Those of pages that weren't written yet are zeros.
#[derive(Drop)]
pub(crate) struct Seals {
    digests: BTreeMap<u32, [u8; 32]>,
}

impl Model for Seals {
    ghost use Rattle.std.specs.Prelude.{List, ℕ};

    ghost Value = { List (ℕ × List ℕ) };

    ghost view = { λ seals. seals.digests.entries };
}

impl Seals {
    /// Room for the digests of these pages.
    pub(crate) fn make(alloc: Global, pages: &[u32]) -> Result<Seals, Memory>
        ensures { IfOk result (λ seals. (page : ℕ) → is_some (digest_of seals page)
            ≡ list_any (λ p. p == page) pages.now) }
    {
        let mut digests = BTreeMap::new(alloc);
        for page in pages {
            digests.insert(*page, [0; 32])?;
        }
        Ok(Seals { digests })
    }

    /// Keeps the digest of a page that has room for one.
    pub(crate) fn keep(&mut self, page: u32, digest: [u8; 32])
        requires { IsSome (digest_of self.old page) }
        ensures { digest_of self.new ≡ with_digest (digest_of self.old) page digest }
    {
        let Some(kept) = self.digests.get_mut(&page) else {
            return;
        };
        *kept = digest;
    }

    /// The digest that is kept of a page.
    pub(crate) fn kept(&self, page: u32) -> [u8; 32]
        ensures { IfSome (digest_of self.now page) (λ digest. result ≡ digest) }
    {
        match self.digests.get(&page) {
            Some(digest) => *digest,
            None => [0; 32],
        }
    }
}
