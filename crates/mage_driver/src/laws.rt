// Laws of circuits.
ghost use Rattle.mage_instr.specs.declared.op.Op.{Op};
ghost use Rattle.mage_driver.specs.Counts.{HasItsAnds};

use crate::Driver;

/// Over any driver, the circuit of each instruction has as many ANDs as the table of opcodes says.
pub fn ands_are_counted<D: Driver>()
    ensures { (op : Op) → HasItsAnds D.rules op }
{}
