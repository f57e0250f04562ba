// The classes of values.
ghost use Rattle.std.specs.Prelude.{◌≡◌};
ghost use Rattle.mage_instr.specs.Opcodes.{IsWidth};
ghost use Rattle.mage_place.specs.Classes.{IsLeastPower, class_of_width};

/// The class of a value of this width, which is 1 to 128 bits: the least power of two not below the width.
pub fn class_of(width: u8) -> u8
    requires { IsWidth width }
    ensures least { IsLeastPower width result }
    ensures value { result ≡ class_of_width width }
{
    width.next_power_of_two()
}
