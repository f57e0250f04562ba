// What circuits compute on plain wires.
ghost use Rattle.std.specs.Prelude.{IsTrue};
ghost use Rattle.mage_instr.specs.declared.op.Op.{Op};
ghost use Rattle.mage_instr.specs.declared.op.Op.TheVariants as op;
ghost use Rattle.mage_circuit_laws.specs.Right.{IsRight, computes};

/// On plain wires the circuit of each instruction that computes gives the bits of the number that it computes, at every width
/// from 1 to 128: one clause an instruction, and all of them together.
pub fn circuits_are_right()
    ensures constant { IsRight op.Const }
    ensures add { IsRight op.Add }
    ensures sub { IsRight op.Sub }
    ensures mul { IsRight op.Mul }
    ensures and { IsRight op.And }
    ensures or { IsRight op.Or }
    ensures xor { IsRight op.Xor }
    ensures not { IsRight op.Not }
    ensures eq { IsRight op.Eq }
    ensures lt { IsRight op.Lt }
    ensures mux { IsRight op.Mux }
    ensures shl { IsRight op.Shl }
    ensures shr { IsRight op.Shr }
    ensures resize { IsRight op.Resize }
    ensures div { IsRight op.Div }
    ensures rem { IsRight op.Rem }
    ensures count { IsRight op.Count }
    ensures min { IsRight op.Min }
    ensures max { IsRight op.Max }
    ensures every { (o : Op) → IsTrue (computes o) → IsRight o }
{}
