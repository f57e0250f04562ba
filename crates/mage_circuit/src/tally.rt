// A driver for tests, which counts its calls and stops at one of them.
ghost use Rattle.std.specs.Prelude.{◌≡◌};
ghost use Rattle.mage_driver.specs.declared.standing.Standing.TheVariants as standing;

use mage_driver::{Driver, Standing};
use mage_instr::{DriverFault, Party};
use std::marker::Model;

/// Answers Ok to so many calls of `and`, `input`, `output` and `finish`, and a fault to the next, with its number. A wire is
/// its bit, and each input is 0.
#[derive(Debug, Drop)]
pub struct TallyDriver {
    calls: u64,
    last: u64,
    ands: u64,
    standing: Standing,
}

impl Model for TallyDriver {
    ghost use Rattle.std.specs.Prelude.{◌≤◌};
    ghost use Rattle.mage_circuit.specs.Tally.{TallyMoment};

    ghost Value = { TallyMoment };

    ghost view = { λ d. record {
      state = record { calls = d.calls; last = d.last; ands = d.ands };
      standing = d.standing;
    } };

    ghost invariant = { λ d. (d.ands ≤ d.calls) × (d.calls ≤ d.last) };
}

impl TallyDriver {
    /// A driver that answers Ok to so many calls.
    pub fn make(last: u64) -> TallyDriver
        ensures { result ≡ record {
          state = record { calls = 0; last = last; ands = 0 };
          standing = standing.Running;
        } }
    {
        TallyDriver {
            calls: 0,
            last,
            ands: 0,
            standing: Standing::Running,
        }
    }

    /// How many calls were answered Ok.
    pub fn calls(&self) -> u64
        ensures { result ≡ self.now.state.calls }
    {
        self.calls
    }

    /// How many of them were of `and`.
    pub fn ands(&self) -> u64
        ensures { result ≡ self.now.state.ands }
    {
        self.ands
    }
}

impl Driver for TallyDriver {
    ghost use Rattle.std.specs.Prelude.{refl};
    ghost use Rattle.mage_circuit.specs.Tally.{tally_rules, told_of};
    ghost use Rattle.mage_circuit.specs.TallyLaws.{tally_is_lawful};

    type Wire = bool;

    const WIRE_BYTES: u32 = 1;

    ghost WIRE_BYTES = { 1 };

    ghost rules = { tally_rules };

    ghost tells = { told_of };

    fn input(&mut self, _party: Party, into: &mut [bool]) -> Result<(), DriverFault> {
        if self.calls == self.last {
            let fault = DriverFault::Short { at: self.calls };
            self.standing = Standing::Failed(fault);
            return Err(fault);
        }
        self.calls += 1;
        into.fill(false);
        Ok(())
    }

    fn constant(&self, bit: bool) -> bool {
        bit
    }

    fn xor(&self, a: bool, b: bool) -> bool {
        a ^ b
    }

    fn not(&self, a: bool) -> bool {
        !a
    }

    fn and(&mut self, a: bool, b: bool) -> Result<bool, DriverFault> {
        if self.calls == self.last {
            let fault = DriverFault::Short { at: self.calls };
            self.standing = Standing::Failed(fault);
            return Err(fault);
        }
        self.calls += 1;
        self.ands += 1;
        Ok(a & b)
    }

    fn output(&mut self, _wires: &[bool]) -> Result<(), DriverFault> {
        if self.calls == self.last {
            let fault = DriverFault::Short { at: self.calls };
            self.standing = Standing::Failed(fault);
            return Err(fault);
        }
        self.calls += 1;
        Ok(())
    }

    fn pack(&self, wire: bool, into: &mut [u8]) {
        into[0] = u8::from(wire);
    }

    fn unpack(&self, from: &[u8]) -> bool {
        from[0] % 2 == 1
    }

    fn known(&self, wire: bool) -> bool {
        wire
    }

    fn finish(&mut self) -> Result<(), DriverFault> {
        if self.calls == self.last {
            let fault = DriverFault::Short { at: self.calls };
            self.standing = Standing::Failed(fault);
            return Err(fault);
        }
        self.calls += 1;
        self.standing = Standing::Finished;
        Ok(())
    }

    ghost bytes = { refl };

    ghost lawful = { tally_is_lawful };
}
