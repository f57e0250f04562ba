// Steps, instructions and names.
#![tactic(auto, unfolding(crate::specs::Unroller::state_of))]

ghost use Rattle.std.specs.Prelude.{◌≡◌, ◌≤◌, Ok, OnOk};
ghost use Rattle.mage_instr.specs.Opcodes.{width_of_result};
ghost use Rattle.mage_constants.specs.Answer.{Gives};
ghost use Rattle.mage_unroll.specs.Limits.{MOST_STEPS as most_steps};
ghost use Rattle.mage_unroll.specs.State.{stepped, stepped_by, emitted, defined, is_free, bound, is_as_wide};
ghost use Rattle.mage_unroll.specs.Statements.{entering, leaving};
ghost use Rattle.mage_unroll.specs.Unroller.{state_of, Does, Answers};

use crate::unroller::Unroller;
use crate::{Named, Variable};
use mage_constants::fault_at;
use mage_instr::{Instr, Op, result_width};
use mage_lex::{LangFault, LangKind, Token};
use mage_tree::bytes_of;

// How many steps a program may have.
const MOST_STEPS: u32 = 16_000_000;

// How many instructions a program may have.
const MOST_INSTRS: usize = 2_000_000;

// The width of the result of an instruction; its own where it has none.
fn width_of_result(op: Op, width: u8) -> u8
    ensures { result ≡ width_of_result op width }
{
    result_width(op, width).unwrap_or(width)
}

/// Refuses two widths that differ, at this token.
pub fn is_as_wide(token: &Token, width: u8, other: u8) -> Result<(), LangFault>
    ensures { Gives (λ x. x) result (is_as_wide token.now width other) }
{
    if width == other {
        Ok(())
    } else {
        Err(fault_at(LangKind::WidthDiffers, token))
    }
}

impl<'a> Unroller<'a> {
    /// So many steps more. `word` is the first token of the statement.
    pub fn step_by(&mut self, count: u128, word: &Token) -> Result<(), LangFault>
        ensures steps { Does (stepped_by count word.now) self.old self.new result }
        ensures few { OnOk result (count ≤ most_steps) }
    {
        let left = MOST_STEPS.saturating_sub(self.steps);
        if count > u128::from(left) || self.steps > MOST_STEPS {
            return Err(fault_at(LangKind::TooLong, word));
        }
        self.steps += count as u32;
        Ok(())
    }

    /// One step more.
    pub fn step(&mut self, word: &Token) -> Result<(), LangFault>
        ensures { Does (stepped word.now) self.old self.new result }
    {
        self.step_by(1, word)
    }

    /// One instruction more on a worker.
    pub fn emit(&mut self, word: &Token, worker: u8, instr: Instr) -> Result<(), LangFault>
        ensures { Does (emitted word.now worker instr) self.old self.new result }
    {
        if self.emission.emitted.len() >= MOST_INSTRS {
            return Err(fault_at(LangKind::TooLong, word));
        }
        self.emission.add(worker, instr)?;
        Ok(())
    }

    /// One instruction more on the current worker, and the variable that it defines.
    pub fn define(&mut self, word: &Token, instr: Instr) -> Result<Variable, LangFault>
        ensures { Answers (defined word.now instr) self.old self.new result }
    {
        let index = self.emission.count(self.worker);
        self.emit(word, self.worker, instr)?;
        Ok(Variable {
            width: width_of_result(instr.op, instr.width),
            index,
        })
    }

    /// Refuses a name that is visible.
    pub fn is_free(&self, name: &Token) -> Result<(), LangFault>
        ensures { Gives (λ x. x) result (is_free name.now (state_of self.now)) }
    {
        if self.scopes.get(bytes_of(name)).is_some() {
            Err(fault_at(LangKind::Duplicate, name))
        } else {
            Ok(())
        }
    }

    /// The name stands for this in the innermost scope.
    pub fn bind(&mut self, name: &'a Token, value: Named) -> Result<(), LangFault>
        ensures { Does (λ s. Ok (bound name.now value s)) self.old self.new result }
    {
        self.scopes.declare(bytes_of(name), value)?;
        Ok(())
    }

    /// Enters a scope without names.
    pub fn enter(&mut self) -> Result<(), LangFault>
        ensures { Does (λ s. Ok (entering s)) self.old self.new result }
    {
        self.scopes.enter()?;
        Ok(())
    }

    /// Leaves the innermost scope.
    pub fn leave(&mut self)
        ensures { state_of self.new ≡ leaving (state_of self.old) }
    {
        self.scopes.leave();
    }
}
