// The names of the workers' files.
ghost use Rattle.std.specs.Prelude.{◌≡◌, IfOk, string_bytes};
ghost use Rattle.mage_lending.specs.Names.{worker_file};

use mage_base::Memory;
use std::alloc::Global;

/// The name of a worker's file, as `out.0` of worker 0: what all the names have in common, a dot and the worker's number.
pub fn worker_file(alloc: Global, prefix: &str, worker: u16) -> Result<String, Memory>
    ensures { IfOk result (λ name. string_bytes name ≡ worker_file prefix.now worker) }
{
    Ok(format!(in alloc; "{prefix}.{worker}")?)
}
