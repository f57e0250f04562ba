// The input texts of a command.
ghost use Rattle.std.specs.Prelude.{◌≡◌, ℕ, true, option_map, All, IfOk, IfSome};
ghost use Rattle.mage_instr.specs.Inputs.{input_widths_of};
ghost use Rattle.mage_instr.specs.Sound.{IsSound};
ghost use Rattle.mage_texts.specs.Lists.{lists_of};
ghost use Rattle.mage_texts.specs.InputText.{inputs_of, FitWidths};
ghost use Rattle.mage_planner.specs.declared.refusal.Refusal.TheVariants as refusals;
ghost use Rattle.mage_planner.specs.Outcome.{bytes_or, or_line, numbers_of};
ghost use Rattle.mage_planner.specs.Found.{INPUT_LIMIT, File, file_named};
ghost use Rattle.mage_planner.specs.Steps.{Gives, StepCounted, IsNoDeskFault};

use crate::Refusal;
use mage_base::{Desk, DeskError};
use mage_instr::{Party, Program, input_widths};
use mage_pipe::Loaded;
use mage_texts::{InputFault, read_inputs};
use std::alloc::Global;

// The most bytes that an input text may have.
const MOST_INPUT_BYTES: u64 = 67_108_864;

// The bytes of a party's input text: of the file, where one is named.
fn fetch_input<D: Desk>(
    alloc: Global,
    desk: &mut D,
    name: Option<&str>,
    party: Party,
) -> Result<Vec<u8>, Refusal>
    ensures told { IfSome (D.tells desk.old).files (λ files. Gives (D.tells desk.old).steady
        (λ bytes. bytes.items) result (bytes_or (refusals.InputTooLong party)
        (file_named files (option_map (λ n. n.now) name.entry) INPUT_LIMIT))) }
    ensures some { (file : File) × Gives true (λ bytes. bytes.items) result
        (bytes_or (refusals.InputTooLong party) file) }
    ensures cause { StepCounted (D.tells desk.old).faults (D.tells desk.new).faults result }
    ensures rest { D.tells desk.new
        ≡ record (D.tells desk.old) { faults = (D.tells desk.new).faults } }
{
    let Some(name) = name else {
        return Ok(Vec::new(alloc));
    };
    match desk.fetch(alloc, name, MOST_INPUT_BYTES) {
        Ok(bytes) => Ok(bytes),
        Err(DeskError::Fault) => Err(Refusal::Desk),
        Err(DeskError::TooLong) => Err(Refusal::InputTooLong { party }),
        Err(DeskError::Memory) => Err(Refusal::Memory),
    }
}

/// The numbers of a party's input text.
pub fn numbers(
    alloc: Global,
    text: &[u8],
    program: &Program,
    party: Party,
) -> Result<Vec<Vec<u128>>, Refusal>
    requires { All IsSound program.now.workers }
    ensures quiet { (faults : ℕ) → StepCounted faults faults result }
    ensures no_fault { IsNoDeskFault result }
    ensures numbers { Gives true (λ numbers. lists_of numbers.items) result
        (or_line party (inputs_of text.now (input_widths_of party program.now))) }
    ensures fit { IfOk result (λ numbers.
        FitWidths (input_widths_of party program.now) (lists_of numbers.items)) }
{
    let widths = input_widths(alloc, program, party).map_err(|_| Refusal::Memory)?;
    match read_inputs(alloc, text, widths.as_slice()) {
        Ok(numbers) => Ok(numbers),
        Err(InputFault::Line { line }) => Err(Refusal::InputLine { party, line }),
        Err(InputFault::Memory) => Err(Refusal::Memory),
    }
}

/// The numbers of a party's input text, which is that of the file where one is named, and else empty.
#[tactic(auto, unfolding(crate::specs::Outcome::numbers_of))]
pub fn read_numbers<D: Desk>(
    alloc: Global,
    desk: &mut D,
    name: Option<&str>,
    loaded: &Loaded,
    party: Party,
) -> Result<Vec<Vec<u128>>, Refusal>
    requires { All IsSound loaded.now.program.workers }
    ensures told { IfSome (D.tells desk.old).files (λ files. Gives (D.tells desk.old).steady
        (λ numbers. lists_of numbers.items) result (numbers_of party loaded.now
        (file_named files (option_map (λ n. n.now) name.entry) INPUT_LIMIT))) }
    ensures some { (file : File) × Gives true (λ numbers. lists_of numbers.items) result
        (numbers_of party loaded.now file) }
    ensures fit { IfOk result (λ numbers.
        FitWidths (input_widths_of party loaded.now.program) (lists_of numbers.items)) }
    ensures cause { StepCounted (D.tells desk.old).faults (D.tells desk.new).faults result }
    ensures rest { D.tells desk.new
        ≡ record (D.tells desk.old) { faults = (D.tells desk.new).faults } }
{
    let text = fetch_input(alloc, desk, name, party)?;
    numbers(alloc, &text, &loaded.program, party)
}
