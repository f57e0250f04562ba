// What is warned of a refusal.
ghost use Rattle.mage_planner.specs.Lines.{line_of};
ghost use Rattle.mage_planner.specs.Warned.{WarnsLine, IsOrMemory};

use crate::Refusal;
use crate::line::line_of;
use mage_base::{Desk, Memory};
use std::alloc::Global;

// Warns a line. A warning that fails changes no answer.
fn warn<D: Desk>(desk: &mut D, line: &str)
    ensures { WarnsLine line.now (D.tells desk.old) (D.tells desk.new) }
{
    let _ = desk.warn(line.as_bytes());
}

/// Warns the line of a refusal, and gives the refusal whose line it is: this one, or want of memory where there was none
/// to write its line.
pub fn refuse<D: Desk>(alloc: Global, desk: &mut D, refusal: Refusal) -> Refusal
    ensures same { IsOrMemory refusal result }
    ensures warns { WarnsLine (line_of result) (D.tells desk.old) (D.tells desk.new) }
{
    match line_of(alloc, refusal) {
        Ok(line) => {
            warn(desk, line.as_str());
            refusal
        }
        Err(Memory) => {
            warn(desk, "mage: no memory\n");
            Refusal::Memory
        }
    }
}
