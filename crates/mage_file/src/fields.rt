// Reading field by field.
ghost use Rattle.std.specs.Prelude.{◌≡◌, length};
ghost use Rattle.std.specs.Int.{w8, w16, w32, w64};
ghost use Rattle.mage_instr.specs.declared.directive.MemProgram.{MemProgram};
ghost use Rattle.mage_file.specs.Rules.{within, most_if, most_of_two_bytes, greatest_page};
ghost use Rattle.mage_file.specs.Formats.{Gives, Reads, rest_of, place, number_of, field, text};
ghost use Rattle.mage_file.specs.Grammar.{alone};

use crate::directives::MOST_PAGES;
use crate::fault::FileFault;
use crate::left::Left;

// The most that a field of two bytes may hold, which is 0 where it isn't there.
pub fn most_u16(there: bool) -> u16
    ensures { result ≡ most_if there most_of_two_bytes }
{
    if there { u16::MAX } else { 0 }
}

// The most that the field of the page may hold, which is 0 where it isn't there.
pub fn most_page(there: bool) -> u32
    ensures { result ≡ most_if there greatest_page }
{
    if there { MOST_PAGES - 1 } else { 0 }
}

impl<'a> Left<'a> {
    // Where it begins in the input.
    pub fn place(self) -> u64
        ensures { result ≡ place (rest_of self.entry) }
    {
        self.total.saturating_sub(self.bytes.len() as u64)
    }

    // The next byte.
    pub fn take_u8(self) -> Result<(u8, Left<'a>), FileFault>
        ensures { Gives (λ x. (x.0, rest_of x.1)) result (number_of w8 (rest_of self.entry)) }
    {
        if self.bytes.len() < 1 {
            return Err(FileFault::Short { at: self.total });
        }
        let (front, bytes) = self.bytes.split_at(1);
        let total = self.total;
        Ok((front[0], Left { bytes, total }))
    }

    // The number in the next two bytes.
    pub fn take_u16(self) -> Result<(u16, Left<'a>), FileFault>
        ensures { Gives (λ x. (x.0, rest_of x.1)) result (number_of w16 (rest_of self.entry)) }
    {
        if self.bytes.len() < 2 {
            return Err(FileFault::Short { at: self.total });
        }
        let (front, bytes) = self.bytes.split_at(2);
        let total = self.total;
        let number = u16::from_be_bytes([front[0], front[1]]);
        Ok((number, Left { bytes, total }))
    }

    // The number in the next four bytes.
    pub fn take_u32(self) -> Result<(u32, Left<'a>), FileFault>
        ensures { Gives (λ x. (x.0, rest_of x.1)) result (number_of w32 (rest_of self.entry)) }
    {
        if self.bytes.len() < 4 {
            return Err(FileFault::Short { at: self.total });
        }
        let (front, bytes) = self.bytes.split_at(4);
        let total = self.total;
        let number = u32::from_be_bytes([front[0], front[1], front[2], front[3]]);
        Ok((number, Left { bytes, total }))
    }

    // The number in the next eight bytes.
    pub fn take_u64(self) -> Result<(u64, Left<'a>), FileFault>
        ensures { Gives (λ x. (x.0, rest_of x.1)) result (number_of w64 (rest_of self.entry)) }
    {
        if self.bytes.len() < 8 {
            return Err(FileFault::Short { at: self.total });
        }
        let (front, bytes) = self.bytes.split_at(8);
        let total = self.total;
        let number = u64::from_be_bytes([
            front[0], front[1], front[2], front[3], front[4], front[5], front[6], front[7],
        ]);
        Ok((number, Left { bytes, total }))
    }

    // A byte from `least` to `most`.
    #[tactic(auto, unfolding(crate::specs::Formats::field))]
    pub fn u8_within(self, least: u8, most: u8) -> Result<(u8, Left<'a>), FileFault>
        ensures { Reads (field w8 (within least most)) result self.entry }
    {
        let (number, left) = self.take_u8()?;
        if number < least || most < number {
            return Err(FileFault::Field { at: self.place() });
        }
        Ok((number, left))
    }

    // A number of two bytes, from `least` to `most`.
    #[tactic(auto, unfolding(crate::specs::Formats::field))]
    pub fn u16_within(self, least: u16, most: u16) -> Result<(u16, Left<'a>), FileFault>
        ensures { Reads (field w16 (within least most)) result self.entry }
    {
        let (number, left) = self.take_u16()?;
        if number < least || most < number {
            return Err(FileFault::Field { at: self.place() });
        }
        Ok((number, left))
    }

    // A number of four bytes, from `least` to `most`.
    #[tactic(auto, unfolding(crate::specs::Formats::field))]
    pub fn u32_within(self, least: u32, most: u32) -> Result<(u32, Left<'a>), FileFault>
        ensures { Reads (field w32 (within least most)) result self.entry }
    {
        let (number, left) = self.take_u32()?;
        if number < least || most < number {
            return Err(FileFault::Field { at: self.place() });
        }
        Ok((number, left))
    }

    // A text, or the fault where another one stands there.
    #[tactic(auto, unfolding(crate::specs::Formats::text))]
    pub fn text(self, expected: &[u8], fault: FileFault) -> Result<Left<'a>, FileFault>
        ensures { Gives (λ x. (tt, rest_of x)) result ((text expected.now fault).read (rest_of self.entry)) }
    {
        if self.bytes.len() < expected.len() {
            return Err(FileFault::Short { at: self.total });
        }
        if !self.bytes.starts_with(expected) {
            return Err(fault);
        }
        let (_, bytes) = self.bytes.split_at(expected.len());
        let total = self.total;
        Ok(Left { bytes, total })
    }

    // That nothing is left.
    pub fn end(self) -> Result<(), FileFault>
        ensures { (x : MemProgram) → Gives (λ nothing. x) result (alone x (rest_of self.entry)) }
    {
        if self.bytes.is_empty() {
            Ok(())
        } else {
            Err(FileFault::Extra { at: self.place() })
        }
    }
}
