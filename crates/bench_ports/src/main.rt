//! What `bench/ports` times: so many pages that are written through a port and read back, each
//! after those before it. The words are KIND BYTES COUNT: `serial` for a port over a store in
//! memory, `sealed` for one that keeps digests, and `digests` for as many digests alone.
#![tactic(auto)]

mod task;

use std::env;
use std::env::Env;
use std::process::ExitCode;
use task::{Trouble, result_of, task_of};

fn run<R: Env + Print + AllocGlobal>(rt: &R) -> Result<(), Trouble> {
    let words = env::args(rt)
        .map_err(|_| Trouble::Words)?
        .skip(1)
        .collect::<Vec<String>>(rt.alloc())?;
    let task = task_of(&words)?;
    let last = result_of(rt.alloc(), task)?;
    println!(rt; "{} pages, the last byte is {last}", task.count).map_err(|_| Trouble::Print)
}

fn main(rt: HostRuntime) -> ExitCode {
    match run(&rt) {
        Ok(()) => ExitCode::from(0),
        Err(Trouble::Words) => ExitCode::from(2),
        Err(_) => ExitCode::from(1),
    }
}
