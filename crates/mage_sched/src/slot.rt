/// What a slot of the buffer does.
#[derive(Clone, Copy, Debug, PartialEq, Eq)]
pub enum Slot {
    Idle,
    Reads(u32),
    Writes(u32),
}
