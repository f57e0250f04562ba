/// What is left of an input.
#[derive(Clone, Copy)]
pub struct Left<'a> {
    pub bytes: &'a [u8],
    /// How many bytes the whole input has.
    pub total: u64,
}
