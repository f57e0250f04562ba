// Lines and columns, kept along the text.
ghost use Rattle.std.specs.Prelude.{◌≡◌, ◌≤◌, ◌<◌, ◌+◌, ◌^◌, length};
ghost use Rattle.mage_lex.specs.Limits.{MOST_BYTES};
ghost use Rattle.mage_lex.specs.Places.{place_at, next_place};

use crate::piece::Place;

// The place after the byte at this one.
fn next_place(place: Place, byte: u8) -> Place
    requires start { place.start < 2 ^ 32 }
    requires line { place.line + 1 < 2 ^ 32 }
    requires column { place.column + 1 < 2 ^ 32 }
    ensures { result ≡ next_place place byte }
{
    let start = place.start + 1;
    if byte == b'\n' {
        Place {
            start,
            line: place.line + 1,
            column: 1,
        }
    } else {
        Place {
            start,
            line: place.line,
            column: place.column + 1,
        }
    }
}

// The place `size` bytes on.
#[tactic(auto, using(crate::proofs::PlaceLemmas::place_next, crate::proofs::PlaceLemmas::place_bound))]
pub fn moved(text: &[u8], from: Place, size: usize) -> Place
    requires from { from ≡ place_at text.now from.start }
    requires within { from.start + size ≤ length text.now }
    requires short { length text.now ≤ MOST_BYTES }
    ensures place { result ≡ place_at text.now (from.start + size) }
    ensures start { result.start ≡ from.start + size }
{
    let mut place = from;
    for byte in &text[from.start..from.start + size] {
        place = next_place(place, *byte);
    }
    place
}
