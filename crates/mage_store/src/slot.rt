// One slot of a serial port.

/// What a slot was asked for, and hasn't done yet.
#[derive(Clone, Copy, Debug, PartialEq, Eq)]
pub(crate) enum Task {
    Idle,
    Read { page: u32 },
    Write { page: u32 },
    /// The transfer of this page failed.
    Failed { page: u32 },
}

/// A task, and a buffer of a page's length: what is to be written.
#[derive(Drop)]
pub(crate) struct Slot {
    pub(crate) task: Task,
    pub(crate) buffer: Vec<u8>,
}
