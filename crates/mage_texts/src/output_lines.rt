// The text that says outputs.
ghost use Rattle.std.specs.Prelude.{◌≡◌, ◌++◌, OnOk, IfOk};
ghost use Rattle.std.specs.String.{string_bytes};
ghost use Rattle.mage_texts.specs.Lists.{lists_of};
ghost use Rattle.mage_texts.specs.OutputText.{text_of, lines_of_outputs};

use mage_base::Memory;
use std::alloc::Global;

/// The text of each worker's outputs: each output in decimal digits with a line feed, worker 0's first.
pub fn output_text(alloc: Global, outputs: &[Vec<u128>]) -> Result<Vec<u8>, Memory>
    ensures { IfOk result (λ text. text.items ≡ text_of (lists_of outputs.now)) }
{
    let mut text = String::new(alloc);
    for worker in outputs {
        add_outputs(&mut text, worker.as_slice())?;
    }
    Ok(text.into_bytes())
}

// Adds the lines of one worker's outputs.
fn add_outputs(text: &mut String, outputs: &[u128]) -> Result<(), Memory>
    ensures { OnOk result
        (string_bytes text.new ≡ string_bytes text.old ++ lines_of_outputs outputs.now) }
{
    for output in outputs {
        writeln!(text, "{output}")?;
    }
    Ok(())
}
