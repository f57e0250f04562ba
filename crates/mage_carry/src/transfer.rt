use crate::held::Held;

/// What a slot is doing.
#[derive(Drop)]
pub(crate) enum Transfer {
    Idle,
    /// It reads a page.
    Read { page: u32 },
    /// It writes a page, which is to hold this.
    Write { page: u32, held: Held },
}
