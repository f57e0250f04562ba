// What frames hold.

// Whether a frame has these bytes from a place on.
pub fn holds(bank: &[Vec<u8>], frame: usize, from: usize, wanted: &[u8]) -> bool {
    match bank.get(frame) {
        Some(bytes) => from <= bytes.len() && bytes[from..].starts_with(wanted),
        None => false,
    }
}
