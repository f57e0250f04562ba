// What a machine answers when it is asked for one step.

/// What a step did.
#[derive(Clone, Copy, Debug, PartialEq, Eq)]
pub enum Kind {
    /// A frame was filled with zero bytes, an instruction was done, or the driver was finished.
    Do,
    /// A slot was asked for a transfer.
    Ask,
    /// A transfer was finished.
    Finish,
    /// A wire was sent.
    Push,
    /// A wire was received.
    Pop,
}

/// Why a machine can't go on for now.
#[derive(Clone, Copy, Debug, PartialEq, Eq)]
pub enum Why {
    /// The transfer of this slot is under way.
    Slot { slot: u16 },
    /// The link to this worker has no room.
    Full { to: u16 },
    /// The link from this worker has no wire.
    Empty { from: u16 },
}

/// What a step comes to.
#[derive(Clone, Copy, Debug, PartialEq, Eq)]
pub enum Turn {
    Moved(Kind),
    Blocked(Why),
    /// Each directive is done, and the driver is finished.
    Ended,
}
