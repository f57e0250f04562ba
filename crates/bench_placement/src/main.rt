//! What `bench/placement` times: a program of some kind and size is made, placed in pages, and its next uses are
//! found. The words are KIND COUNT PAGE. KIND is `short` for values of 32 bits that live for two instructions,
//! `wide` for the same of 64 bits, or `long` for values of every class of which half of the program's are live at
//! once. With `list-` in front the program is made and no more is done.
#![tactic(auto)]

mod job;
mod lists;
mod report;

use job::{Job, Trouble, job_of};
use report::{Report, report_of};
use std::env;
use std::env::Env;
use std::process::ExitCode;

fn run<R: Env + Print + AllocGlobal>(rt: &R) -> Result<(), Trouble> {
    let words = env::args(rt)
        .map_err(|_| Trouble::Words)?
        .skip(1)
        .collect::<Vec<String>>(rt.alloc())?;
    let job = job_of(&words)?;
    let report = report_of(rt.alloc(), job)?;
    let Report {
        instructions,
        pages,
        steps,
        uses,
    } = report;
    println!(rt;
        "{instructions} instructions, {pages} pages, {steps} steps, {uses} later uses"
    ).map_err(|_| Trouble::Print)
}

fn main(rt: HostRuntime) -> ExitCode {
    match run(&rt) {
        Ok(()) => ExitCode::from(0),
        Err(Trouble::Words) => ExitCode::from(2),
        Err(_) => ExitCode::from(1),
    }
}
