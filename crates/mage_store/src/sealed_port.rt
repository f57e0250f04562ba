// A port that knows damaged pages.
ghost use Rattle.std.specs.Prelude.{◌≡◌, ◌==◌, ◌<◌, ℕ, is_some, length, get_or, replicate, IfOk, IfErr, IsTrue};
ghost use Rattle.std.specs.List.{All, list_any};
ghost use Rattle.sha2.specs.Sha256.{sha256};
ghost use Rattle.mage_port.specs.Port.{IsUnused, IsAsked, IsAskedRead, Finishes, KeepsOn, slot_state};
ghost use Rattle.mage_store.specs.SealedPort.{port_told, no_watch, Judges, BringsSealed, StandsOver};
ghost use Rattle.mage_store.specs.Seals.{digest_of};

use crate::seals::Seals;
use crate::watch::Watch;
use mage_base::{Damage, Memory};
use mage_port::{PortWait, Ready, SwapPort};
use sha2::{Digest, Sha256};
use std::alloc::Global;
use std::marker::Model;

/// A port over another port. It keeps the SHA-256 digest of each page that is written, and answers
/// `Damaged` just where a page comes back with another digest.
#[derive(Drop)]
pub struct SealedPort<P: SwapPort> {
    port: P,
    watches: Vec<Watch>,
    seals: Seals,
}

impl<P: SwapPort> Model for SealedPort<P> {
    ghost use Rattle.mage_store.specs.SealedPort.{SealedState, IsSealed};
    ghost use Rattle.mage_store.specs.Seals.{digest_of};

    ghost Value = { SealedState P };

    ghost view = { λ sealed. record {
      port = sealed.port;
      watches = sealed.watches.items;
      seals = sealed.seals;
    } };

    ghost invariant = { λ sealed. IsSealed (P.tells sealed.port) sealed.watches.items
        (digest_of sealed.seals) };
}

impl<P: SwapPort> SealedPort<P> {
    /// A port over this one, which takes these pages and no others. All of the room is taken here.
    /// With `Memory` the port comes back.
    pub fn make(alloc: Global, pages: &[u32], port: P) -> Result<SealedPort<P>, (P, Memory)>
        requires unused { IsUnused (P.tells port) }
        requires taken { All (λ page. IsTrue ((P.tells port).takes page)) pages.now }
        ensures port { IfOk result (λ sealed. port_told P.tells sealed
            ≡ record (P.tells port) { takes = λ page. list_any (λ p. p == page) pages.now }) }
        ensures over { IfOk result (λ sealed. sealed.port ≡ port) }
        ensures back { IfErr result (λ back. back.0 ≡ port) }
    {
        match room(alloc, port.slots(), pages) {
            Ok((watches, seals)) => Ok(SealedPort {
                port,
                watches,
                seals,
            }),
            Err(memory) => Err((port, memory)),
        }
    }

    /// The port below.
    pub fn close(self) -> P
        ensures port { result ≡ self.port }
        ensures over { StandsOver (port_told P.tells self) (P.tells result) }
    {
        let SealedPort {
            port,
            watches: _,
            seals: _,
        } = self;
        port
    }
}

// Room for what is known of so many slots, of which none was asked yet, and for the digests of
// these pages.
fn room(alloc: Global, slots: u16, pages: &[u32]) -> Result<(Vec<Watch>, Seals), Memory>
    ensures watches { IfOk result (λ room. room.0.items ≡ replicate slots no_watch) }
    ensures seals { IfOk result (λ room. (page : ℕ) → is_some (digest_of room.1 page)
        ≡ list_any (λ p. p == page) pages.now) }
{
    let mut watches = Vec::new(alloc);
    watches.resize(slots as usize, NO_WATCH)?;
    Ok((watches, Seals::make(alloc, pages)?))
}

const NO_WATCH: Watch = Watch {
    page: 0,
    damage: None,
};

fn digest(bytes: &[u8]) -> [u8; 32]
    ensures { result ≡ sha256 bytes.now }
{
    Sha256::digest(bytes)
}

// Compares a page that came back with the digest that is kept of it, and notes the damage.
fn judge(
    seals: &Seals,
    watches: &mut Vec<Watch>,
    slot: usize,
    bytes: &[u8],
) -> Result<Ready, PortWait>
    requires { slot < length watches.old.items }
    ensures { Judges (digest_of seals.now (get_or watches.old.items slot no_watch).page) bytes.now
        watches.old.items watches.new.items slot result }
{
    let page = watches[slot].page;
    let kept = seals.kept(page);
    let found = digest(bytes);
    if kept == found {
        return Ok(Ready::Read);
    }
    let damage = Damage { page, kept, found };
    watches[slot].damage = Some(damage);
    Err(PortWait::Damaged(damage))
}

impl<P: SwapPort> SwapPort for SealedPort<P> {
    ghost tells = { port_told P.tells };

    fn slots(&self) -> u16 {
        self.port.slots()
    }

    fn ask_read(&mut self, slot: u16, page: u32) {
        self.port.ask_read(slot, page);
        self.watches[slot as usize].page = page;
    }

    fn ask_write(&mut self, slot: u16, page: u32, from: &[u8]) {
        self.seals.keep(page, digest(from));
        self.port.ask_write(slot, page, from);
    }

    fn give_write(&mut self, slot: u16, page: u32, from: &mut Vec<u8>) {
        self.seals.keep(page, digest(from.as_slice()));
        self.port.give_write(slot, page, from);
    }

    /// A page that is answered to be read has the digest that is kept.
    fn try_finish(&mut self, slot: u16, into: &mut [u8]) -> Result<Ready, PortWait>
        requires asked { IsAsked (port_told P.tells self.old) slot }
        requires whole { length into.old ≡ (P.tells self.old.port).page_bytes }
        ensures answer { Finishes (port_told P.tells self.old) (port_told P.tells self.new) slot
            into.old into.new result }
        ensures steady { IsTrue (P.tells self.old.port).steady
            → KeepsOn (port_told P.tells self.old)
            (slot_state (port_told P.tells self.old) slot) result }

        ensures sealed { BringsSealed (port_told P.tells self.old) slot into.new result }
    {
        match self.watches[slot as usize].damage {
            Some(damage) => Err(PortWait::Damaged(damage)),
            None => match self.port.try_finish(slot, into) {
                Ok(Ready::Read) => judge(&self.seals, &mut self.watches, slot as usize, into),
                Ok(Ready::Wrote) => Ok(Ready::Wrote),
                Err(wait) => Err(wait),
            },
        }
    }

    /// A page that is answered to be read has the digest that is kept.
    fn try_take(&mut self, slot: u16, into: &mut Vec<u8>) -> Result<Ready, PortWait>
        requires asked { IsAskedRead (port_told P.tells self.old) slot }
        requires whole { length into.old.items ≡ (P.tells self.old.port).page_bytes }
        ensures answer { Finishes (port_told P.tells self.old) (port_told P.tells self.new) slot
            into.old.items into.new.items result }
        ensures whole { length into.new.items ≡ (P.tells self.old.port).page_bytes }
        ensures steady { IsTrue (P.tells self.old.port).steady
            → KeepsOn (port_told P.tells self.old)
            (slot_state (port_told P.tells self.old) slot) result }

        ensures sealed { BringsSealed (port_told P.tells self.old) slot into.new.items result }
    {
        match self.watches[slot as usize].damage {
            Some(damage) => Err(PortWait::Damaged(damage)),
            None => match self.port.try_take(slot, into) {
                Ok(Ready::Read) => {
                    judge(
                        &self.seals,
                        &mut self.watches,
                        slot as usize,
                        into.as_slice(),
                    )
                }
                Ok(Ready::Wrote) => Ok(Ready::Wrote),
                Err(wait) => Err(wait),
            },
        }
    }
}
