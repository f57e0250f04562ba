// What links carry, and what a full one answers.
use thiserror::Error;

/// A wire as a link carries it.
#[derive(Clone, Copy, Debug, PartialEq, Eq)]
pub struct Wire16 {
    pub bytes: [u8; 16],
}

/// The link has no room for another wire.
#[derive(Clone, Copy, Debug, PartialEq, Eq, Error)]
#[error("the link is full")]
pub struct Full;
