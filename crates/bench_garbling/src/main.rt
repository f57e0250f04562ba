//! What `bench/garbling` times: so many ANDs garbled, or garbled and evaluated, each after the one before it; or only the
//! digests that they take. The words are KIND COUNT, with `garble`, `both`, `four` (the digests of garbling) or `two` (those of
//! evaluating) for KIND.
#![tactic(auto)]

mod task;

use std::env;
use std::env::Env;
use std::process::ExitCode;
use task::{Trouble, result_of, task_of};

fn run<R: Env + Print + AllocGlobal>(rt: &R) -> Result<(), Trouble> {
    let words = env::args(rt)
        .map_err(|_| Trouble::Words)?
        .skip(1)
        .collect::<Vec<String>>(rt.alloc())?;
    let task = task_of(&words)?;
    let last = result_of(rt.alloc(), task)?;
    println!(rt; "{} ANDs, the last byte is {last}", task.count).map_err(|_| Trouble::Print)
}

fn main(rt: HostRuntime) -> ExitCode {
    match run(&rt) {
        Ok(()) => ExitCode::from(0),
        Err(Trouble::Words) => ExitCode::from(2),
        Err(_) => ExitCode::from(1),
    }
}
