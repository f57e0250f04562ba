//! Tests of the drivers that garble and evaluate: on the calls of a sum of two inputs, and under the circuits of instructions.
//! Expected bytes are those of another program, `tools/garbled_sum.py`.
#![tactic(auto)]

#[cfg(test)]
mod dealt;
#[cfg(test)]
mod evaluating;
#[cfg(test)]
mod garbling;
#[cfg(test)]
mod programs;
#[cfg(test)]
mod quiet;
#[cfg(test)]
mod steps;
#[cfg(test)]
mod sum;
