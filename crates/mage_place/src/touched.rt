// The values that an instruction touches.
ghost use Rattle.std.specs.Prelude.{◌≡◌, ◌≤◌, take};
ghost use Rattle.mage_place.specs.Live.{values_touched_by};

use mage_instr::{Instr, arity, result_width};

/// The values that an instruction touches: the first `count` of `values`.
#[derive(Clone, Copy)]
pub struct Touched {
    pub values: [u32; 4],
    pub count: u8,
}

// The arguments of instruction t, and then its result.
pub fn touched_values(instr: Instr, t: u32) -> Touched
    ensures four { result.count ≤ 4 }
    ensures values { take result.count result.values ≡ values_touched_by instr t }
{
    let [a, b, c] = instr.args;
    let count = arity(instr.op);
    let mut values = [a, b, c, 0];
    match result_width(instr.op, instr.width) {
        Some(_) => {
            values[usize::from(count)] = t;
            Touched {
                values,
                count: count + 1,
            }
        }
        None => Touched { values, count },
    }
}
