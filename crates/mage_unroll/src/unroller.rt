// The state of an execution.
use crate::Named;
use crate::emission::Emission;
use mage_scopes::Scopes;
use std::alloc::Global;

/// What is kept while a source is executed once.
#[derive(Drop)]
pub struct Unroller<'a> {
    pub alloc: Global,
    pub scopes: Scopes<'a, Named>,
    pub emission: Emission,
    pub steps: u32,
    // The current worker.
    pub worker: u8,
    // How many workers there are.
    pub workers: u8,
}
