// What can happen to a world, and why it didn't.
use mage_instr::DriverFault;

/// One event of the core: worker `w` has a turn of this kind, or a transfer of a slot of it is claimed or served.
#[derive(Clone, Copy, Debug, PartialEq, Eq)]
pub enum Event {
    /// A frame is filled, an instruction is done, or, past the last directive, the driver is finished.
    Do { w: u16 },
    /// A slot is asked for a transfer.
    Ask { w: u16 },
    /// Somebody takes it on to serve a slot that is asked.
    Claim { w: u16, slot: u16 },
    /// The bytes of a claimed transfer go over.
    Serve { w: u16, slot: u16 },
    /// The worker takes what a slot read, or that its write is done.
    Finish { w: u16 },
    /// A wire is put at the end of a link.
    Push { w: u16 },
    /// The first wire of a link is taken.
    Pop { w: u16 },
}

/// Why an event wasn't done.
#[derive(Clone, Copy, Debug, PartialEq, Eq)]
pub enum ApplyError {
    /// It isn't enabled, and nothing changed.
    NotEnabled,
    /// The worker's driver answered this fault.
    Driver(DriverFault),
}

/// What a turn of a worker does.
#[derive(Clone, Copy, PartialEq, Eq)]
pub enum Kind {
    Do,
    Ask,
    Finish,
    Push,
    Pop,
}
