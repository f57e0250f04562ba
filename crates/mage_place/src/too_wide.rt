// Values that don't fit a page.
ghost use Rattle.std.specs.Prelude.{◌≡◌, Some, None, if◌then◌else◌};
ghost use Rattle.mage_instr.specs.Opcodes.{IsWidth};
ghost use Rattle.mage_instr.specs.Sound.{IsSound};
ghost use Rattle.mage_place.specs.TooWide.{is_too_wide, page_tight};
ghost use Rattle.mage_place.specs.Live.{class_of_result};

use crate::class_of;
use mage_instr::{Instr, Tight, result_width};

/// The first instruction whose value has a class that is greater than a page of `page` wires, as `Tight::Page` with its
/// class; `None` where each value fits.
pub fn page_tight(instrs: &[Instr], page: u32) -> Option<Tight>
    requires { IsSound instrs.now }
    ensures { result ≡ page_tight page instrs.now }
{
    for (t, instr) in instrs.iter().enumerate() {
        if let Some(class) = class_above(*instr, page) {
            let instr = t as u32;
            return Some(Tight::Page { instr, class });
        }
    }
    None
}

// The class of an instruction's value, where it is greater than a page.
fn class_above(instr: Instr, page: u32) -> Option<u8>
    requires { IsWidth instr.width }
    ensures { result ≡ (if is_too_wide page instr then Some (class_of_result instr) else None) }
{
    let class = class_of(result_width(instr.op, instr.width)?);
    if u32::from(class) > page {
        Some(class)
    } else {
        None
    }
}
