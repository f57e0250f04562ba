//! Whether a memory program carries a program: each worker's directives do just its instructions, in their order, and
//! each of them finds its arguments where the memory program says that they stand.
#![tactic(auto, unfolding(crate::specs::Views::state_of))]

mod carry;
mod carrying;
mod held;
mod jobs;
mod laws;
mod transfer;
mod walk;

pub use carry::Carry;
pub use carrying::carries;
pub use laws::laws_of_carrying;
