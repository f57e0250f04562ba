//! The program of instructions that a source unrolls to.
#![tactic(auto)]

mod effects;
mod emission;
mod execution;
mod expressions;
mod headers;
mod known;
mod operators;
mod places;
mod state;
mod statements;
mod unrolled;
mod unroller;

pub use state::{Array, Named, Scalar, Variable};
pub use unrolled::unroll;
