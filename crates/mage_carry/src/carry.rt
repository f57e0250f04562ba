/// Whether a memory program carries a program.
#[derive(Clone, Copy, Debug, PartialEq, Eq)]
pub enum Carry {
    Yes,
    /// The lowest worker whose directives break the rules, and the first of its directives that does, or their number.
    No { worker: u16, directive: u32 },
}
