// A stream that is read from a source.
ghost use Rattle.std.specs.Prelude.{◌≡◌, ◌≤◌, ◌<◌, nat_le, false, Option, length, take, unwrap_or, [], IfErr, IfOk, IsTrue, OnOk};
ghost use Rattle.mage_base.specs.Faults.{count_after};
ghost use Rattle.mage_instr.specs.declared.fault.DriverFault.{DriverFault};
ghost use Rattle.mage_eval.specs.Reading.{Fails, after_bytes, tells_left, wrong_piece};

use crate::filling::fill;
use mage_base::{Failed, Source};
use mage_instr::DriverFault;
use std::marker::Model;

/// How many bytes are held at most.
pub(crate) const MOST_HELD: usize = 4096;

/// Bytes that are taken from a source in larger pieces than are due.
pub(crate) struct Stream<R: Source> {
    source: R,
    held: [u8; MOST_HELD],
    from: usize,
    to: usize,
    at: u64,
}

impl<R: Source> Model for Stream<R> {
    ghost use Rattle.std.specs.Prelude.{◌≡◌, ◌≤◌, ◌-◌, ◌++◌, [], drop, take, unwrap_or};
    ghost use Rattle.mage_eval.specs.Reading.{Incoming, tells_left};

    ghost Value = { Incoming };

    ghost view = { λ s. record {
      left = take (s.to - s.from) (drop s.from s.held) ++ unwrap_or (R.tells s.source).left [];
      ready = s.to - s.from;
      at = s.at;
      steady = (R.tells s.source).steady;
      faults = (R.tells s.source).faults;
      told = tells_left (R.tells s.source);
    } };

    ghost invariant = { λ s. (s.from ≤ s.to) × (s.to ≤ 4096) };
}

impl<R: Source> Stream<R> {
    /// A stream of which nothing was read.
    pub(crate) fn make(source: R) -> Stream<R>
        ensures { result ≡ record {
          left = unwrap_or (R.tells source).left [];
          ready = 0;
          at = 0;
          steady = (R.tells source).steady;
          faults = (R.tells source).faults;
          told = tells_left (R.tells source);
        } }
    {
        Stream {
            source,
            held: [0; MOST_HELD],
            from: 0,
            to: 0,
            at: 0,
        }
    }

    /// Takes bytes from the source until so many are here, or it has ended; and tells which.
    pub(crate) fn hold(&mut self, count: usize) -> Result<bool, DriverFault>
        requires { count ≤ 4096 }
        ensures rest { OnOk result (self.new ≡ record self.old { left = self.new.left; ready = self.new.ready }) }
        ensures same { OnOk result (IsTrue self.old.told → self.new.left ≡ self.old.left) }
        ensures enough { IfOk result (λ enough. IsTrue self.old.told → enough ≡ nat_le count (length self.old.left)) }
        ensures here { IfOk result (λ enough. IsTrue enough → count ≤ self.new.ready) }
        ensures held { OnOk result (self.new.ready ≤ length self.new.left) }
        ensures ended { IfOk result (λ enough. enough ≡ false → IsTrue self.old.told
            → self.new.ready ≡ length self.old.left) }
        ensures told { self.new.told ≡ self.old.told }
        ensures steady { self.new.steady ≡ self.old.steady }
        ensures fails { (wrong : Option DriverFault) → IfErr result (λ f. Fails wrong self.old self.new f) }
    {
        if count <= self.to - self.from {
            return Ok(true);
        }
        self.refill(count)
    }

    // The same, where they aren't.
    fn refill(&mut self, count: usize) -> Result<bool, DriverFault>
        requires few { count ≤ 4096 }
        requires missing { self.old.ready < count }
        ensures rest { OnOk result (self.new ≡ record self.old { left = self.new.left; ready = self.new.ready }) }
        ensures same { OnOk result (IsTrue self.old.told → self.new.left ≡ self.old.left) }
        ensures enough { IfOk result (λ enough. IsTrue self.old.told → enough ≡ nat_le count (length self.old.left)) }
        ensures here { IfOk result (λ enough. IsTrue enough → count ≤ self.new.ready) }
        ensures held { OnOk result (self.new.ready ≤ length self.new.left) }
        ensures ended { IfOk result (λ enough. enough ≡ false → IsTrue self.old.told
            → self.new.ready ≡ length self.old.left) }
        ensures told { self.new.told ≡ self.old.told }
        ensures steady { self.new.steady ≡ self.old.steady }
        ensures fails { (wrong : Option DriverFault) → IfErr result (λ f. Fails wrong self.old self.new f) }
    {
        self.held.copy_within(self.from..self.to, 0);
        self.to -= self.from;
        self.from = 0;
        match fill(&mut self.source, &mut self.held, self.to, count) {
            Ok(now) => self.to = now,
            Err(Failed) => return Err(DriverFault::Source),
        }
        Ok(count <= self.to)
    }

    /// Sees to it that so many bytes are here.
    pub(crate) fn begin(&mut self, count: usize) -> Result<(), DriverFault>
        requires { count ≤ 4096 }
        ensures here { OnOk result (count ≤ self.new.ready) }
        ensures enough { OnOk result (count ≤ length self.new.left) }
        ensures rest { OnOk result (self.new ≡ record self.old { left = self.new.left; ready = self.new.ready }) }
        ensures same { OnOk result (IsTrue self.old.told → self.new.left ≡ self.old.left) }
        ensures told { self.new.told ≡ self.old.told }
        ensures steady { self.new.steady ≡ self.old.steady }
        ensures fails { IfErr result (λ f. Fails (wrong_piece count self.old.at self.old.left) self.old self.new f) }
    {
        match self.hold(count) {
            Ok(true) => Ok(()),
            Ok(false) => Err(DriverFault::Short { at: self.end() }),
            Err(fault) => Err(fault),
        }
    }

    // How many bytes the stream has up to the last one that is here.
    fn end(&self) -> u64
        ensures { result ≡ count_after self.now.at self.now.ready }
    {
        let ready = self.to - self.from;
        self.at.saturating_add(ready as u64)
    }

    /// Takes bytes that are here.
    pub(crate) fn read(&mut self, into: &mut [u8])
        requires { length into.old ≤ self.old.ready }
        ensures bytes { into.new ≡ take (length into.old) self.old.left }
        ensures left { self.new ≡ after_bytes self.old (length into.old) }
    {
        let count = into.len();
        let end = self.from + count;
        into.copy_from_slice(&self.held[self.from..end]);
        self.from = end;
        self.at = self.at.saturating_add(count as u64);
    }

    /// How many bytes were read.
    pub(crate) fn place(&self) -> u64
        ensures { result ≡ self.now.at }
    {
        self.at
    }

    /// Hands the source back. What is here and wasn't read is lost.
    pub(crate) fn into_source(self) -> R
        ensures { (self.steady ≡ (R.tells result).steady) × (self.faults ≡ (R.tells result).faults) }
    {
        let Stream {
            source,
            held: _,
            from: _,
            to: _,
            at: _,
        } = self;
        source
    }
}
