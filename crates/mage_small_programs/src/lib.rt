//! Small memory programs, written out by hand, for the tests of several crates; and lemmas on the stores that suit them.
#![tactic(auto)]

mod making;
mod programs;

pub use making::{one_worker, one_worker_over, two_workers};
pub use programs::{adding, both_parties, handing_over, keeping, swapping, swapping_twice};
