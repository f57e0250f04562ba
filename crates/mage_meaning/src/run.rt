// A run so far.
use crate::known::Known;
use mage_scopes::Scopes;
use std::alloc::Global;

/// What is kept while a source is evaluated.
#[derive(Drop)]
pub struct Run<'a> {
    pub alloc: Global,
    // The current worker.
    pub worker: u128,
    pub names: Scopes<'a, Known>,
    // Each worker's input values that aren't taken yet.
    pub garbler: Vec<&'a [u128]>,
    pub evaluator: Vec<&'a [u128]>,
    // Each worker's outputs.
    pub outputs: Vec<Vec<u128>>,
}
