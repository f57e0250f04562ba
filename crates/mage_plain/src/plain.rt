// The driver that computes in plain.
ghost use Rattle.std.specs.Prelude.{◌≡◌, ◌≤◌, [], length, drop, IfOk};
ghost use Rattle.mage_bits.specs.Bits.{bits};
ghost use Rattle.mage_driver.specs.declared.standing.Standing.TheVariants as standing;
ghost use Rattle.mage_plain.specs.Plain.{next_of};

use mage_base::Memory;
use mage_bits::number_of;
use mage_driver::Driver;
use mage_instr::{DriverFault, Party};
use std::alloc::Global;
use std::marker::Model;

/// Computes in plain: a wire is its bit. It never faults. An input value gives its lowest bits, and past a party's last value
/// an input is 0; an output past the room isn't kept.
#[derive(Drop)]
pub struct PlainDriver {
    garbler: Vec<u128>,
    evaluator: Vec<u128>,
    garbler_next: usize,
    evaluator_next: usize,
    outputs: Vec<u128>,
    room: u32,
    ands: u64,
    is_finished: bool,
}

impl Model for PlainDriver {
    ghost use Rattle.std.specs.Prelude.{◌≤◌, ◌<◌, ◌^◌, drop, length, if◌then◌else◌};
    ghost use Rattle.std.specs.Vec.{vec_len, vec_capacity};
    ghost use Rattle.mage_driver.specs.declared.standing.Standing.TheVariants as standing;
    ghost use Rattle.mage_plain.specs.Plain.{PlainMoment};

    ghost Value = { PlainMoment };

    ghost view = { λ d. record {
      state = record {
        garbler = drop d.garbler_next d.garbler.items;
        evaluator = drop d.evaluator_next d.evaluator.items;
        outputs = d.outputs.items;
        room = d.room;
        ands = d.ands;
      };
      standing = if d.is_finished then standing.Finished else standing.Running;
    } };

    ghost invariant = { λ d. (length d.outputs.items ≤ d.room) × (d.room ≤ vec_capacity d.outputs)
        × (d.ands < 2 ^ 63) × (d.garbler_next ≤ length d.garbler.items)
        × (d.evaluator_next ≤ length d.evaluator.items) };
}

impl PlainDriver {
    /// A driver over the values of both parties, in order, which keeps this many outputs. `Memory` where there is none
    /// for them.
    pub fn make(
        alloc: Global,
        garbler: Vec<u128>,
        evaluator: Vec<u128>,
        outputs: u32,
    ) -> Result<PlainDriver, Memory>
        ensures { IfOk result (λ driver. driver ≡ record {
          state = record {
            garbler = garbler.items;
            evaluator = evaluator.items;
            outputs = [];
            room = outputs;
            ands = 0;
          };
          standing = standing.Running;
        }) }
    {
        let kept = Vec::with_capacity(alloc, outputs as usize)?;
        Ok(PlainDriver {
            garbler,
            evaluator,
            garbler_next: 0,
            evaluator_next: 0,
            outputs: kept,
            room: outputs,
            ands: 0,
            is_finished: false,
        })
    }

    /// What was put out, as far as there was room.
    pub fn outputs(&self) -> &[u128]
        ensures { result.now ≡ self.now.state.outputs }
    {
        self.outputs.as_slice()
    }

    /// The same, where the driver isn't needed any more.
    pub fn into_outputs(self) -> Vec<u128>
        ensures { result.items ≡ self.state.outputs }
    {
        self.outputs
    }
}

// The next value of a list and the place after it; 0 past the last.
fn next_value(values: &[u128], place: usize) -> (u128, usize)
    requires { place ≤ length values.now }
    ensures value { result.0 ≡ next_of (drop place values.now) }
    ensures place { drop result.1 values.now ≡ drop 1 (drop place values.now) }
    ensures within { result.1 ≤ length values.now }
{
    if place < values.len() {
        (values[place], place + 1)
    } else {
        (0, place)
    }
}

// The lowest bits of a value, as many as there is room for.
fn spread(value: u128, into: &mut [bool])
    ensures { into.new ≡ bits value (length into.old) }
{
    let mut left = value;
    for i in 0..into.len() {
        into[i] = left % 2 == 1;
        left /= 2;
    }
}

impl Driver for PlainDriver {
    ghost use Rattle.std.specs.Prelude.{refl};
    ghost use Rattle.mage_plain.specs.Plain.{plain_rules, told_of};
    ghost use Rattle.mage_plain.specs.PlainLaws.{plain_is_lawful};

    type Wire = bool;

    const WIRE_BYTES: u32 = 1;

    ghost WIRE_BYTES = { 1 };

    ghost rules = { plain_rules };

    ghost tells = { told_of };

    fn input(&mut self, party: Party, into: &mut [bool]) -> Result<(), DriverFault> {
        match party {
            Party::Garbler => {
                let (value, next) = next_value(self.garbler.as_slice(), self.garbler_next);
                self.garbler_next = next;
                spread(value, into);
            }
            Party::Evaluator => {
                let (value, next) = next_value(self.evaluator.as_slice(), self.evaluator_next);
                self.evaluator_next = next;
                spread(value, into);
            }
        }
        Ok(())
    }

    fn constant(&self, bit: bool) -> bool {
        bit
    }

    fn xor(&self, a: bool, b: bool) -> bool {
        a ^ b
    }

    fn not(&self, a: bool) -> bool {
        !a
    }

    fn and(&mut self, a: bool, b: bool) -> Result<bool, DriverFault> {
        self.ands = (self.ands + 1) % (1 << 63);
        Ok(a & b)
    }

    fn output(&mut self, wires: &[bool]) -> Result<(), DriverFault> {
        if self.outputs.len() < self.room as usize {
            self.outputs.push(number_of(wires)).unwrap();
        }
        Ok(())
    }

    fn pack(&self, wire: bool, into: &mut [u8]) {
        into[0] = u8::from(wire);
    }

    fn unpack(&self, from: &[u8]) -> bool {
        from[0] % 2 == 1
    }

    fn known(&self, wire: bool) -> bool {
        wire
    }

    fn finish(&mut self) -> Result<(), DriverFault> {
        self.is_finished = true;
        Ok(())
    }

    ghost bytes = { refl };

    ghost lawful = { plain_is_lawful };
}
