//! What a source means: the direct evaluator, which knows no instruction.
#![tactic(auto)]

mod arithmetic;
mod constants;
mod direct;
mod effects;
mod expressions;
mod inputs;
mod known;
mod laws;
mod parties;
mod places;
mod run;
mod statements;
mod width;

pub use direct::oracle;
pub use inputs::Inputs;
pub use laws::unrolled_means_the_same;
