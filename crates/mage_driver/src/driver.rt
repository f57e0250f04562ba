// Whoever makes gates.
ghost use Rattle.std.specs.Prelude.{◌≡◌, ◌≤◌, ℕ, Bool, IsTrue, length, IfOk, OnOk};
ghost use Rattle.mage_instr.specs.Opcodes.{greatest_width};
ghost use Rattle.mage_driver.specs.declared.standing.Standing.TheVariants as standing;
ghost use Rattle.mage_driver.specs.Rules.{Rules, AreLawful};
ghost use Rattle.mage_driver.specs.Calls.{Told, And, Input, Output, Finish, Asked};

use mage_instr::{DriverFault, Party};

/// Makes gates over wires: in plain, as a garbler, or as an evaluator. What a driver does is the rules that it tells: a
/// definition of the new state and the wires for each call, and a test which says when a call may answer a fault.
///
/// Only a driver that runs may be called: it runs at first, and no more once `finish` is answered Ok or any call a fault. A
/// fault of the source or the sink of a stream is answered only where the count of their faults rose, or stands at its
/// greatest value, and this count rises in no call that is answered Ok.
///
/// Over a source or a sink that doesn't tell what it holds, as over files of the system, nothing is said of the state and the
/// wires that a call leaves: only how the driver stands and what it counted.
pub trait Driver {
    type Wire: Copy + Send;

    /// How many bytes a packed wire takes, 1 to 16.
    const WIRE_BYTES: u32;

    ghost WIRE_BYTES: { ℕ };

    ghost rules: { Rules Self.Wire };

    ghost tells: { Self → Told rules.State };

    /// Takes the next bits of a party, lowest first, as many as there is room for.
    fn input(&mut self, party: Party, into: &mut [Self::Wire]) -> Result<(), DriverFault>
        requires running { (tells self.old).standing ≡ standing.Running }
        requires few { length into.old ≤ greatest_width }
        ensures call { Asked rules (Input party (length into.old))
            (tells self.old) (tells self.new) result }
        ensures wires { OnOk result (IsTrue (tells self.old).told
            → into.new ≡ (rules.input (tells self.old).state party (length into.old)).1) };

    /// The wire of a bit that everybody knows.
    fn constant(&self, bit: bool) -> Self::Wire
        requires { (tells self.now).standing ≡ standing.Running }
        ensures { result ≡ rules.constant (tells self.now).state bit };

    fn xor(&self, a: Self::Wire, b: Self::Wire) -> Self::Wire
        requires { (tells self.now).standing ≡ standing.Running }
        ensures { result ≡ rules.xor a b };

    fn not(&self, a: Self::Wire) -> Self::Wire
        requires { (tells self.now).standing ≡ standing.Running }
        ensures { result ≡ rules.not (tells self.now).state a };

    fn and(&mut self, a: Self::Wire, b: Self::Wire) -> Result<Self::Wire, DriverFault>
        requires { (tells self.old).standing ≡ standing.Running }
        ensures call { Asked rules (And a b) (tells self.old) (tells self.new) result }
        ensures wire { IfOk result (λ wire. IsTrue (tells self.old).told
            → wire ≡ (rules.and (tells self.old).state a b).1) };

    /// Puts out the value of these wires, lowest first.
    fn output(&mut self, wires: &[Self::Wire]) -> Result<(), DriverFault>
        requires running { (tells self.old).standing ≡ standing.Running }
        requires few { length wires.now ≤ greatest_width }
        ensures { Asked rules (Output wires.now) (tells self.old) (tells self.new) result };

    /// Writes a wire into `WIRE_BYTES` bytes.
    fn pack(&self, wire: Self::Wire, into: &mut [u8])
        requires { length into.old ≡ WIRE_BYTES }
        ensures { into.new ≡ rules.pack wire };

    /// Reads a wire from `WIRE_BYTES` bytes.
    fn unpack(&self, from: &[u8]) -> Self::Wire
        requires { length from.now ≡ WIRE_BYTES }
        ensures { result ≡ rules.unpack from.now };

    /// Gives a wire back: every value of the type of wires is one.
    fn known(&self, wire: Self::Wire) -> Self::Wire
        ensures same { result ≡ wire }
        ensures wire { rules.IsWire wire };

    /// Ends the work.
    fn finish(&mut self) -> Result<(), DriverFault>
        requires { (tells self.old).standing ≡ standing.Running }
        ensures { Asked rules Finish (tells self.old) (tells self.new) result };

    ghost bytes: { rules.wire_bytes ≡ WIRE_BYTES };

    ghost lawful: { AreLawful rules };
}
