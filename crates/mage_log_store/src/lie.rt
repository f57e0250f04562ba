// A false answer.

/// At the read with Ok before which so many reads were made, this byte is xored with the mask. A
/// byte past the page changes nothing.
#[derive(Clone, Copy, Debug, PartialEq, Eq)]
pub struct Lie {
    pub read: u64,
    pub byte: u32,
    pub mask: u8,
}
