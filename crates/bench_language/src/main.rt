//! What `bench/language` times. The words are FILE and then any of `print` and `unroll`: the source in the file is read,
//! then printed, or unrolled, as often as the words say. For each the size of what came of it is said. The status is
//! 2 for other words, 3 for a source with a fault, which is said with its kind and place, and 1 where the file can't
//! be read, a line can't be said, or memory runs out.
#![tactic(auto)]

mod sizes;
mod task;
mod trouble;

use mage_tree::Source;
use sizes::{Reading, instructions, printed_bytes, read};
use std::env::Env;
use std::process::ExitCode;
use std::rt::Files;
use std::{env, fs};
use task::{Task, tasks_of};
use trouble::Trouble;

fn say<R: Print>(rt: &R, count: usize, what: &str) -> Result<(), Trouble> {
    println!(rt; "{count} {what}").map_err(|_| Trouble::Outside)
}

fn read_file<R: Files + Print + AllocGlobal>(rt: &R, name: &str) -> Result<Source, Trouble> {
    let text = fs::read(rt, name).map_err(|_| Trouble::Outside)?;
    let Reading { source, tokens } = read(rt.alloc(), &text)?;
    say(rt, tokens, "tokens")?;
    Ok(source)
}

fn perform<R: Print + AllocGlobal>(rt: &R, task: Task, source: &Source) -> Result<(), Trouble> {
    match task {
        Task::Print => say(rt, printed_bytes(rt.alloc(), source)?, "bytes printed"),
        Task::Unroll => say(rt, instructions(rt.alloc(), source)?, "instructions"),
    }
}

fn run<R: Env + Files + Print + AllocGlobal>(rt: &R) -> Result<(), Trouble> {
    let words = env::args(rt)
        .map_err(|_| Trouble::Words)?
        .skip(1)
        .collect::<Vec<String>>(rt.alloc())?;
    let [file, tasks @ ..] = words.as_slice() else {
        return Err(Trouble::Words);
    };
    let tasks = tasks_of(rt.alloc(), tasks)?;
    let source = read_file(rt, file.as_str())?;
    for task in &tasks {
        perform(rt, *task, &source)?;
    }
    Ok(())
}

fn main(rt: HostRuntime) -> ExitCode {
    match run(&rt) {
        Ok(()) => ExitCode::from(0),
        Err(Trouble::Words) => ExitCode::from(2),
        Err(Trouble::Source(fault)) => {
            let _ = eprintln!(rt; "{fault}");
            ExitCode::from(3)
        }
        Err(Trouble::Outside) => ExitCode::from(1),
    }
}
