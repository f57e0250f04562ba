// The lines of label files and streams.
ghost use Rattle.std.specs.Prelude.{◌≡◌, IfOk, string_bytes};
ghost use Rattle.mage_planner.specs.declared.refusal.Refusal.TheVariants as refusal;
ghost use Rattle.mage_planner.specs.declared.refusal.StreamFault.TheVariants as stream;
ghost use Rattle.mage_planner.specs.Lines.{line_of};

use crate::StreamFault;
use std::alloc::{AllocError, Global};

/// The line of a label file of another length than is due.
pub fn labels_line(alloc: Global, worker: u16) -> Result<String, AllocError>
    ensures { IfOk result (λ text. string_bytes text ≡ line_of (refusal.InputLabels worker)) }
{
    format!(in alloc; "mage: input labels {worker}\n")
}

fn short_line(alloc: Global, worker: u16, at: u64) -> Result<String, AllocError>
    ensures { IfOk result (λ text.
        string_bytes text ≡ line_of (refusal.Stream worker (stream.Short at))) }
{
    format!(in alloc; "mage: stream of worker {worker}: short at {at}\n")
}

fn long_line(alloc: Global, worker: u16, at: u64) -> Result<String, AllocError>
    ensures { IfOk result (λ text.
        string_bytes text ≡ line_of (refusal.Stream worker (stream.Long at))) }
{
    format!(in alloc; "mage: stream of worker {worker}: long at {at}\n")
}

fn colour_line(alloc: Global, worker: u16, at: u64) -> Result<String, AllocError>
    ensures { IfOk result (λ text.
        string_bytes text ≡ line_of (refusal.Stream worker (stream.Colour at))) }
{
    format!(in alloc; "mage: stream of worker {worker}: colour at {at}\n")
}

/// The line of a stream.
pub fn stream_line(alloc: Global, worker: u16, fault: StreamFault) -> Result<String, AllocError>
    ensures { IfOk result (λ text. string_bytes text ≡ line_of (refusal.Stream worker fault)) }
{
    match fault {
        StreamFault::Short { at } => short_line(alloc, worker, at),
        StreamFault::Long { at } => long_line(alloc, worker, at),
        StreamFault::Colour { at } => colour_line(alloc, worker, at),
    }
}
