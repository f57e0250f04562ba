/// What a slot of a worker's buffer does.
#[derive(Clone, Copy, Debug, PartialEq, Eq)]
pub enum Slot {
    Idle,
    /// It reads the page, and is in flight.
    Reading(u32),
    /// It writes the page, and is in flight.
    Writing(u32),
}
