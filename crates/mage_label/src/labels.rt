// Labels of wires, and their xor and lowest bit.
ghost use Rattle.std.specs.Prelude.{◌≡◌};
ghost use Rattle.mage_label.specs.Labels.{lsb, with_lsb, xor};

use std::simd::u8x16;

/// A label of a wire: 16 bytes. Its lowest bit is that of byte 15.
#[derive(Clone, Copy, Debug, PartialEq, Eq)]
pub struct Label {
    pub bytes: [u8; 16],
}

impl Label {
    /// The two labels, bit by bit.
    #[tactic(auto, unfolding(crate::specs::Labels::xor))]
    pub fn xor(self, other: Label) -> Label
        ensures { result ≡ xor self other }
    {
        let bytes = u8x16::from_array(self.bytes) ^ u8x16::from_array(other.bytes);
        Label {
            bytes: bytes.to_array(),
        }
    }

    /// The lowest bit.
    #[tactic(auto, unfolding(crate::specs::Labels::lsb))]
    pub fn lsb(self) -> bool
        ensures { result ≡ lsb self }
    {
        self.bytes[15] % 2 == 1
    }

    /// This label with its lowest bit set.
    #[tactic(auto, unfolding(crate::specs::Labels::with_lsb))]
    pub(crate) fn with_lsb(mut self) -> Label
        ensures { result ≡ with_lsb self }
    {
        self.bytes[15] |= 1;
        self
    }
}
