//! What `bench/engine` times: a machine that goes through so many blocks of 16 instructions, each behind a page that goes out and
//! comes in again, or on pages that stay; or as many instructions alone. The words are DRIVER WAY NAME BLOCKS, with `plain` or
//! `garble` for DRIVER, `verify` (the program alone, verified), `machine` or `exec` for WAY, and `add`, `mul` or `stay` (additions
//! on pages that stay) for NAME.
#![tactic(auto)]

mod alone;
mod blocks;
mod failing;
mod machine;
mod plan;
mod task;

use failing::Trouble;
use std::env;
use std::env::Env;
use std::process::ExitCode;
use task::{result_of, task_of};

fn run<R: Env + Print + AllocGlobal>(rt: &R) -> Result<(), Trouble> {
    let words = env::args(rt)
        .map_err(|_| Trouble::Words)?
        .skip(1)
        .collect::<Vec<String>>(rt.alloc())?;
    let task = task_of(&words)?;
    let value = result_of(rt.alloc(), task)?;
    println!(rt; "{} blocks, the value put out is {value}", task.blocks).map_err(|_| Trouble::Print)
}

fn main(rt: HostRuntime) -> ExitCode {
    match run(&rt) {
        Ok(()) => ExitCode::from(0),
        Err(Trouble::Words) => ExitCode::from(2),
        Err(_) => ExitCode::from(1),
    }
}
