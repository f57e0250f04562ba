//! What `bench/circuits` times: an instruction made in plain so many times, each on the result of the one before it. The words
//! are NAME WIDTH COUNT, with the name of an opcode in small letters.
#![tactic(auto)]

mod task;

use std::env;
use std::env::Env;
use std::process::ExitCode;
use task::{Trouble, ones_of, task_of};

fn run<R: Env + Print + AllocGlobal>(rt: &R) -> Result<(), Trouble> {
    let words = env::args(rt)
        .map_err(|_| Trouble::Words)?
        .skip(1)
        .collect::<Vec<String>>(rt.alloc())?;
    let task = task_of(&words)?;
    let ones = ones_of(rt.alloc(), task)?;
    println!(rt;
        "{} instructions, the last result has {ones} ones",
        task.count
    )
    .map_err(|_| Trouble::Print)
}

fn main(rt: HostRuntime) -> ExitCode {
    match run(&rt) {
        Ok(()) => ExitCode::from(0),
        Err(Trouble::Words) => ExitCode::from(2),
        Err(_) => ExitCode::from(1),
    }
}
