//! `mage_plan`: what a user runs. It makes a desk over real files, standard output and standard error, and hands it to the
//! planner.
#![tactic(auto)]

use mage_outside::{NoWords, RealDesk, command_words};
use mage_planner::{Refusal, planner, refuse};
use std::process::ExitCode;

// Words that aren't text are bad words.
fn refusal_of(fault: NoWords) -> Refusal {
    match fault {
        NoWords::NotText => Refusal::Words,
        NoWords::Memory => Refusal::Memory,
    }
}

fn main(rt: HostRuntime) -> ExitCode {
    let mut desk = RealDesk::new(&rt, rt.alloc(), rt.stderr());
    let status = match command_words(&rt) {
        Ok(words) => planner(rt.alloc(), &words, &mut desk),
        Err(fault) => refuse(rt.alloc(), &mut desk, refusal_of(fault)).status(),
    };
    ExitCode::from(status.code())
}
