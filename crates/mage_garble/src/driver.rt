// The driver that garbles.
ghost use Rattle.std.specs.Prelude.{◌≡◌, ◌≤◌, ◌<◌, ◌^◌, ◌∷◌, [], IfErr, IfOk, IsTrue, OnOk, drop, length, unwrap_or};
ghost use Rattle.mage_instr.specs.Opcodes.{greatest_width};
ghost use Rattle.mage_instr.specs.declared.party.Party.TheVariants as party;
ghost use Rattle.mage_driver.specs.Calls.{Asked, Fell, Finish, Input, call_of};
ghost use Rattle.mage_streams.specs.Garbling.{inputs_of};
ghost use Rattle.mage_driver.specs.declared.standing.Standing.TheVariants as standing;
ghost use Rattle.mage_streams.specs.Numbers.{next_value};
ghost use Rattle.mage_garble.specs.Rule.{garble_rules, garbling_from, FailsAtItsSink};
ghost use Rattle.mage_garble.specs.Sending.{tells_taken};

use crate::gates::garble_and;
use crate::inputs::{NUMBERS, label_inputs, say_active, say_colours};
use crate::outgoing::Outgoing;
use mage_base::{Memory, Sink};
use mage_driver::{Driver, Standing};
use mage_instr::{DriverFault, Party};
use mage_label::{Label, offset};
use std::alloc::Global;
use std::marker::Model;

/// Garbles one worker's part. A wire is its zero label. To the sink it says the active labels of the garbler's inputs, the two
/// tables of each AND and the colour of each output wire, in the order of the calls; what it says is put there in larger pieces,
/// the last of it by `finish`.
///
/// An input value gives its lowest bits, and past the last value an input is 0.
pub struct GarbleDriver<K: Sink> {
    seed: [u8; 32],
    offset: Label,
    worker: u16,
    values: Vec<u128>,
    taken: usize,
    wires: u64,
    gates: u64,
    out: Outgoing<K>,
    standing: Standing,
}

impl<K: Sink> Model for GarbleDriver<K> {
    ghost use Rattle.std.specs.Prelude.{◌≡◌, ◌≤◌, ◌<◌, ◌^◌, drop, length};
    ghost use Rattle.mage_driver.specs.Calls.{Told};
    ghost use Rattle.mage_label.specs.Labels.{offset_of};
    ghost use Rattle.mage_garble.specs.Rule.{FailsAtItsSink, Garbling};

    ghost Value = { Told Garbling };

    ghost view = { λ d. record {
      state = record {
        garbler = record {
          seed = d.seed;
          worker = d.worker;
          values = drop d.taken d.values.items;
          wires = d.wires;
          gates = d.gates;
        };
        sending = d.out.sending;
      };
      standing = d.standing;
      faults = d.out.faults;
      told = d.out.told;
    } };

    ghost invariant = { λ d. (d.offset ≡ offset_of d.seed) × (d.taken ≤ length d.values.items)
        × (d.wires < 2 ^ 63) × (d.gates < 2 ^ 63) × FailsAtItsSink d.standing };
}

impl<K: Sink> GarbleDriver<K> {
    /// A driver of a worker with the garbler's values, in order, that says what it says to a sink. What the sink has taken is told
    /// where the sink tells it now. `Memory` where there is none for what waits; then the sink is handed back.
    pub fn make(
        alloc: Global,
        seed: [u8; 32],
        worker: u16,
        garbler: Vec<u128>,
        sink: K,
    ) -> Result<GarbleDriver<K>, (K, Memory)>
        ensures made { IfOk result (λ driver. driver ≡ record {
          state = garbling_from seed worker garbler.items 0 0 (K.tells sink);
          standing = standing.Running;
          faults = (K.tells sink).faults;
          told = tells_taken (K.tells sink);
        }) }
        ensures back { IfErr result (λ failed. failed.0 ≡ sink) }
    {
        GarbleDriver::make_at(alloc, seed, worker, garbler, 0, 0, sink)
    }

    /// The same, behind so many input wires of both parties and so many ANDs, with the values that are still to come.
    pub fn make_at(
        alloc: Global,
        seed: [u8; 32],
        worker: u16,
        garbler: Vec<u128>,
        wires: u64,
        gates: u64,
        sink: K,
    ) -> Result<GarbleDriver<K>, (K, Memory)>
        ensures made { IfOk result (λ driver. driver ≡ record {
          state = garbling_from seed worker garbler.items wires gates (K.tells sink);
          standing = standing.Running;
          faults = (K.tells sink).faults;
          told = tells_taken (K.tells sink);
        }) }
        ensures back { IfErr result (λ failed. failed.0 ≡ sink) }
    {
        match Outgoing::make(alloc, sink) {
            Ok(out) => Ok(GarbleDriver {
                seed,
                offset: offset(&seed),
                worker,
                values: garbler,
                taken: 0,
                wires: wires % NUMBERS,
                gates: gates % NUMBERS,
                out,
                standing: Standing::Running,
            }),
            Err(failed) => Err(failed),
        }
    }

    /// Puts all that waits into the sink, so that it has taken all that was said so far.
    pub fn flush(&mut self) -> Result<(), DriverFault>
        requires { self.old.standing ≡ standing.Running }
        ensures sent { OnOk result (self.new ≡ record self.old { state = self.new.state }) }
        ensures state { OnOk result (IsTrue self.old.told
            → self.new.state ≡ garble_rules.finish self.old.state) }
        ensures stopped { IfErr result
            (λ f. Fell garble_rules (call_of garble_rules self.old.state Finish ∷ []) self.old f self.new) }
    {
        match self.out.flush() {
            Ok(()) => Ok(()),
            Err(fault) => {
                self.standing = Standing::Failed(fault);
                Err(fault)
            }
        }
    }

    /// Hands the sink back: it has a front of what was said, and after `finish` or `flush` all of it. One that told at first
    /// what it had taken tells so still. A driver that has failed did so at its sink, whatever that tells.
    pub fn close(self) -> K
        ensures stream { self.state.sending.stream ≡ unwrap_or (K.tells result).taken [] }
        ensures told { IsTrue self.told → IsTrue (tells_taken (K.tells result)) }
        ensures faults { self.faults ≡ (K.tells result).faults }
        ensures sink { FailsAtItsSink self.standing }
    {
        let GarbleDriver {
            seed: _,
            offset: _,
            worker: _,
            values: _,
            taken: _,
            wires: _,
            gates: _,
            out,
            standing: _,
        } = self;
        out.into_sink()
    }
}

impl<K: Sink> GarbleDriver<K> {
    // An input of the garbler: its active labels are said.
    fn garbler_input(&mut self, into: &mut [Label]) -> Result<(), DriverFault>
        requires running { self.old.standing ≡ standing.Running }
        requires few { length into.old ≤ greatest_width }
        ensures call { Asked garble_rules (Input party.Garbler (length into.old)) self.old self.new result }
        ensures wires { OnOk result (into.new ≡ inputs_of self.old.state.garbler (length into.old)) }
    {
        if let Err(fault) = self.out.begin(16 * into.len()) {
            self.standing = Standing::Failed(fault);
            return Err(fault);
        }
        label_inputs(&self.seed, self.worker, self.wires, into);
        let (value, next) = next_of(self.values.as_slice(), self.taken);
        self.taken = next;
        say_active(&mut self.out, self.offset, value, into);
        self.wires = (self.wires + into.len() as u64) % NUMBERS;
        Ok(())
    }

    // An input of the evaluator, of which nothing is said.
    fn evaluator_input(&mut self, wires: &mut [Label])
        requires few { length wires.old ≤ greatest_width }
        ensures after { self.new ≡ record self.old {
          state = (garble_rules.input self.old.state party.Evaluator (length wires.old)).0;
        } }
        ensures zeros { wires.new ≡ inputs_of self.old.state.garbler (length wires.old) }
    {
        label_inputs(&self.seed, self.worker, self.wires, wires);
        self.wires = (self.wires + wires.len() as u64) % NUMBERS;
    }
}

// The next of the values, and the place behind it; 0 past the last.
fn next_of(values: &[u128], place: usize) -> (u128, usize)
    requires { place ≤ length values.now }
    ensures value { result.0 ≡ next_value (drop place values.now) }
    ensures place { drop result.1 values.now ≡ drop 1 (drop place values.now) }
    ensures within { result.1 ≤ length values.now }
{
    if place < values.len() {
        (values[place], place + 1)
    } else {
        (0, place)
    }
}

impl<K: Sink> Driver for GarbleDriver<K> {
    ghost use Rattle.std.specs.Prelude.{refl};
    ghost use Rattle.mage_garble.specs.Rule.{garble_rules};
    ghost use Rattle.mage_garble.specs.Lawful.{garbling_is_lawful};

    type Wire = Label;

    const WIRE_BYTES: u32 = 16;

    ghost WIRE_BYTES = { 16 };

    ghost rules = { garble_rules };

    ghost tells = { λ d. d };

    fn input(&mut self, party: Party, into: &mut [Label]) -> Result<(), DriverFault> {
        match party {
            Party::Garbler => self.garbler_input(into),
            Party::Evaluator => {
                self.evaluator_input(into);
                Ok(())
            }
        }
    }

    fn constant(&self, bit: bool) -> Label {
        if bit {
            self.offset
        } else {
            Label { bytes: [0; 16] }
        }
    }

    fn xor(&self, a: Label, b: Label) -> Label {
        a.xor(b)
    }

    fn not(&self, a: Label) -> Label {
        a.xor(self.offset)
    }

    fn and(&mut self, a: Label, b: Label) -> Result<Label, DriverFault> {
        if let Err(fault) = self.out.begin(32) {
            self.standing = Standing::Failed(fault);
            return Err(fault);
        }
        let gate = garble_and(a, b, self.offset, self.worker, self.gates);
        self.out.add(&gate.generator.bytes);
        self.out.add(&gate.evaluator.bytes);
        self.gates = (self.gates + 1) % NUMBERS;
        Ok(gate.zero)
    }

    fn output(&mut self, wires: &[Label]) -> Result<(), DriverFault> {
        if let Err(fault) = self.out.begin(wires.len()) {
            self.standing = Standing::Failed(fault);
            return Err(fault);
        }
        say_colours(&mut self.out, wires);
        Ok(())
    }

    fn pack(&self, wire: Label, into: &mut [u8]) {
        into.copy_from_slice(&wire.bytes);
    }

    fn unpack(&self, from: &[u8]) -> Label {
        let mut bytes = [0; 16];
        bytes.copy_from_slice(from);
        Label { bytes }
    }

    fn known(&self, wire: Label) -> Label {
        wire
    }

    fn finish(&mut self) -> Result<(), DriverFault> {
        match self.out.flush() {
            Ok(()) => {
                self.standing = Standing::Finished;
                Ok(())
            }
            Err(fault) => {
                self.standing = Standing::Failed(fault);
                Err(fault)
            }
        }
    }

    ghost bytes = { refl };

    ghost lawful = { garbling_is_lawful };
}
