// The driver that evaluates.
ghost use Rattle.std.specs.Prelude.{◌≡◌, ◌≤◌, ◌<◌, ◌^◌, [], IfErr, IfOk, OnOk, length, unwrap_or};
ghost use Rattle.mage_driver.specs.declared.standing.Standing.TheVariants as standing;
ghost use Rattle.mage_eval.specs.Rule.{evaluating_from, FailsAtItsSource};
ghost use Rattle.mage_eval.specs.Reading.{tells_left};

use crate::gates::evaluate_and;
use crate::incoming::Stream;
use crate::inputs::{first_labels, read_labels, read_tables};
use crate::outputs::{read_end, read_value};
use mage_base::{Memory, Source};
use mage_driver::{Driver, Standing};
use mage_instr::{DriverFault, Party};
use mage_label::Label;
use std::alloc::Global;
use std::marker::Model;

// Numbers of gates run modulo this.
const NUMBERS: u64 = 1 << 63;

/// Evaluates one worker's part. A wire is its active label. The labels of the evaluator's inputs were dealt; those of the
/// garbler's, the two tables of each AND and the colour of each output wire come from a stream.
///
/// Past the last label that was dealt, a label is zero bytes; an output past the room isn't kept.
pub struct EvalDriver<R: Source> {
    worker: u16,
    labels: Vec<Label>,
    taken: usize,
    gates: u64,
    stream: Stream<R>,
    outputs: Vec<u128>,
    room: u32,
    standing: Standing,
}

impl<R: Source> Model for EvalDriver<R> {
    ghost use Rattle.std.specs.Prelude.{◌≡◌, ◌≤◌, ◌<◌, ◌^◌, None, drop, length};
    ghost use Rattle.std.specs.Vec.{vec_capacity};
    ghost use Rattle.mage_driver.specs.Calls.{Told};
    ghost use Rattle.mage_eval.specs.Rule.{Evaluating, FailsAtItsSource};

    ghost Value = { Told Evaluating };

    ghost view = { λ d. record {
      state = record {
        evaluator = record {
          worker = d.worker;
          labels = drop d.taken d.labels.items;
          gates = d.gates;
          left = d.stream.left;
          outputs = d.outputs.items;
        };
        at = d.stream.at;
        steady = d.stream.steady;
        room = d.room;
        wrong = None;
      };
      standing = d.standing;
      faults = d.stream.faults;
      told = d.stream.told;
    } };

    ghost invariant = { λ d. (d.taken ≤ length d.labels.items) × (d.gates < 2 ^ 63)
        × (length d.outputs.items ≤ d.room) × (d.room ≤ vec_capacity d.outputs)
        × FailsAtItsSource d.stream.steady d.standing };
}

impl<R: Source> EvalDriver<R> {
    /// A driver of a worker with the labels that were dealt to it, in order, which keeps this many outputs and reads a stream. What
    /// comes of the stream is told where the stream tells now what it has left. `Memory` where there is none for the outputs; then the
    /// stream is handed back.
    pub fn make(
        alloc: Global,
        worker: u16,
        labels: Vec<Label>,
        outputs: u32,
        stream: R,
    ) -> Result<EvalDriver<R>, (R, Memory)>
        ensures made { IfOk result (λ driver. driver ≡ record {
          state = evaluating_from worker labels.items outputs (R.tells stream);
          standing = standing.Running;
          faults = (R.tells stream).faults;
          told = tells_left (R.tells stream);
        }) }
        ensures back { IfErr result (λ failed. failed.0 ≡ stream) }
    {
        match Vec::with_capacity(alloc, outputs as usize) {
            Ok(kept) => Ok(EvalDriver {
                worker,
                labels,
                taken: 0,
                gates: 0,
                stream: Stream::make(stream),
                outputs: kept,
                room: outputs,
                standing: Standing::Running,
            }),
            Err(_) => Err((stream, Memory)),
        }
    }

    /// What was put out, as far as there was room.
    pub fn outputs(&self) -> &[u128]
        ensures { result.now ≡ self.now.state.evaluator.outputs }
    {
        self.outputs.as_slice()
    }

    /// Hands the stream back, and what was put out. Whatever the stream tells: a driver that has failed did so at no sink, and at its
    /// source only where that isn't steady.
    pub fn close(self) -> (R, Vec<u128>)
        ensures outputs { result.1.items ≡ self.state.evaluator.outputs }
        ensures faults { self.faults ≡ (R.tells result.0).faults }
        ensures failed { FailsAtItsSource (R.tells result.0).steady self.standing }
    {
        let EvalDriver {
            worker: _,
            labels: _,
            taken: _,
            gates: _,
            stream,
            outputs,
            room: _,
            standing: _,
        } = self;
        (stream.into_source(), outputs)
    }
}

impl<R: Source> Driver for EvalDriver<R> {
    ghost use Rattle.std.specs.Prelude.{refl};
    ghost use Rattle.mage_eval.specs.Rule.{eval_rules};
    ghost use Rattle.mage_eval.specs.Lawful.{evaluating_is_lawful};

    type Wire = Label;

    const WIRE_BYTES: u32 = 16;

    ghost WIRE_BYTES = { 16 };

    ghost rules = { eval_rules };

    ghost tells = { λ d. d };

    fn input(&mut self, party: Party, into: &mut [Label]) -> Result<(), DriverFault> {
        match party {
            Party::Garbler => {
                if let Err(fault) = self.stream.begin(16 * into.len()) {
                    self.standing = Standing::Failed(fault);
                    return Err(fault);
                }
                read_labels(&mut self.stream, into);
            }
            Party::Evaluator => {
                self.taken = first_labels(self.labels.as_slice(), self.taken, into);
            }
        }
        Ok(())
    }

    fn constant(&self, _bit: bool) -> Label {
        Label { bytes: [0; 16] }
    }

    fn xor(&self, a: Label, b: Label) -> Label {
        a.xor(b)
    }

    fn not(&self, a: Label) -> Label {
        a
    }

    fn and(&mut self, a: Label, b: Label) -> Result<Label, DriverFault> {
        if let Err(fault) = self.stream.begin(32) {
            self.standing = Standing::Failed(fault);
            return Err(fault);
        }
        let (generator, evaluator) = read_tables(&mut self.stream);
        let label = evaluate_and(a, b, generator, evaluator, self.worker, self.gates);
        self.gates = (self.gates + 1) % NUMBERS;
        Ok(label)
    }

    fn output(&mut self, wires: &[Label]) -> Result<(), DriverFault> {
        match read_value(&mut self.stream, wires) {
            Ok(value) => {
                if self.outputs.len() < self.room as usize {
                    self.outputs.push(value).unwrap();
                }
                Ok(())
            }
            Err(fault) => {
                self.standing = Standing::Failed(fault);
                Err(fault)
            }
        }
    }

    fn pack(&self, wire: Label, into: &mut [u8]) {
        into.copy_from_slice(&wire.bytes);
    }

    fn unpack(&self, from: &[u8]) -> Label {
        let mut bytes = [0; 16];
        bytes.copy_from_slice(from);
        Label { bytes }
    }

    fn known(&self, wire: Label) -> Label {
        wire
    }

    fn finish(&mut self) -> Result<(), DriverFault> {
        match read_end(&mut self.stream) {
            Ok(()) => {
                self.standing = Standing::Finished;
                Ok(())
            }
            Err(fault) => {
                self.standing = Standing::Failed(fault);
                Err(fault)
            }
        }
    }

    ghost bytes = { refl };

    ghost lawful = { evaluating_is_lawful };
}
