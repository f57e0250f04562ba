// The texts of a generated source's inputs.
ghost use Rattle.std.specs.Prelude.{◌≡◌, ◌++◌, ◌<◌, ◌≤◌, ◌*◌, IfOk};
ghost use Rattle.std.specs.String.{string_bytes};
ghost use Rattle.mage_gen.specs.Generator.{next_number, numbers_from, last_from, input_lines};

use mage_base::Memory;

// The number after this one.
fn next_number(value: u32) -> u32
    ensures { result ≡ next_number value }
{
    ((1664525 * u64::from(value) + 1013904223) % 4294967296) as u32
}

// Adds the lines of so many numbers after this one, and answers the last of them.
pub fn add_lines(text: &mut String, number: u32, count: u32) -> Result<u32, Memory>
    ensures lines { IfOk result (λ last. string_bytes text.new
        ≡ string_bytes text.old ++ input_lines (numbers_from number count)) }
    ensures last { IfOk result (λ last. last ≡ last_from number count) }
{
    let mut value = number;
    for _ in 0..count {
        value = next_number(value);
        writeln!(text, "{value}")?;
    }
    Ok(value)
}
