// Bytes taken from a source into a buffer, behind those that are there already.
ghost use Rattle.std.specs.Prelude.{◌≡◌, ◌≤◌, ◌<◌, ◌++◌, ◌⊎◌, [], length, take, unwrap_or, IfOk, IsErr, IsOk, IsTrue, OnOk};
ghost use Rattle.mage_base.specs.Faults.{Counted};
ghost use Rattle.mage_eval.specs.Reading.{tells_left};

use mage_base::{Failed, Source};

// Takes some bytes more, and answers how many there are now. No more than before means that the source has ended.
fn take_more<R: Source>(source: &mut R, buffer: &mut [u8], ready: usize) -> Result<usize, Failed>
    requires room { ready < length buffer.old }
    ensures told { tells_left (R.tells source.new) ≡ tells_left (R.tells source.old) }
    ensures within { IfOk result (λ now. (ready ≤ now) × (now ≤ length buffer.new)) }
    ensures same { IfOk result (λ now. IsTrue (tells_left (R.tells source.old))
        → take now buffer.new ++ unwrap_or (R.tells source.new).left []
        ≡ take ready buffer.old ++ unwrap_or (R.tells source.old).left []) }
    ensures ended { IfOk result (λ now. now ≡ ready → IsTrue (tells_left (R.tells source.old))
        → unwrap_or (R.tells source.new).left [] ≡ []) }
    ensures cause { Counted (R.tells source.old).faults (R.tells source.new).faults result }
    ensures steady { IsTrue (R.tells source.old).steady → IsOk result }
    ensures rest { (R.tells source.new).steady ≡ (R.tells source.old).steady }
{
    let count = source.take(&mut buffer[ready..])?;
    Ok(ready + count)
}

/// Takes bytes until so many are there, or the source has ended; and answers how many there are.
pub(crate) fn fill<R: Source>(
    source: &mut R,
    buffer: &mut [u8],
    ready: usize,
    due: usize,
) -> Result<usize, Failed>
    requires room { (ready ≤ due) × (due ≤ length buffer.old) }
    ensures told { tells_left (R.tells source.new) ≡ tells_left (R.tells source.old) }
    ensures within { IfOk result (λ now. now ≤ length buffer.new) }
    ensures same { IfOk result (λ now. IsTrue (tells_left (R.tells source.old))
        → take now buffer.new ++ unwrap_or (R.tells source.new).left []
        ≡ take ready buffer.old ++ unwrap_or (R.tells source.old).left []) }
    ensures enough { IfOk result (λ now. (due ≤ now) ⊎ (IsTrue (tells_left (R.tells source.old))
        → unwrap_or (R.tells source.new).left [] ≡ [])) }
    ensures cause { Counted (R.tells source.old).faults (R.tells source.new).faults result }
    ensures steady { IsTrue (R.tells source.old).steady → IsOk result }
    ensures rest { (R.tells source.new).steady ≡ (R.tells source.old).steady }
{
    let mut now = ready;
    while now < due {
        let more = take_more(source, buffer, now)?;
        if more == now {
            return Ok(now);
        }
        now = more;
    }
    Ok(now)
}
