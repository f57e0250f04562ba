// The headers of the statements that hold others.
#![tactic(auto, unfolding(crate::specs::Unroller::state_of))]

ghost use Rattle.std.specs.Prelude.{◌≡◌};
ghost use Rattle.mage_unroll.specs.Statements.{first_token, condition};
ghost use Rattle.mage_unroll.specs.Unroller.{Answers};

use crate::unroller::Unroller;
use mage_constants::holds;
use mage_lex::{LangFault, Token};
use mage_tree::ConstExpr;

/// The first token of a constant.
#[tactic(auto, unfolding(crate::specs::Statements::first_token))]
pub fn first_token(constant: &ConstExpr) -> &Token
    ensures { result.now ≡ first_token constant.now }
{
    match constant {
        ConstExpr::Number(token) | ConstExpr::Name(token) => token,
        ConstExpr::Paren { bracket, .. } => bracket,
        ConstExpr::Minus { op, .. } => op,
        ConstExpr::Chain { first, .. } => first_token(first.get()),
    }
}

impl Unroller<'_> {
    /// The header of an `if`: whether its condition holds.
    #[tactic(auto, unfolding(crate::specs::Unroller::state_of, crate::specs::Statements::condition))]
    pub fn condition(
        &mut self,
        word: &Token,
        left: &ConstExpr,
        operator: &Token,
        right: &ConstExpr,
    ) -> Result<bool, LangFault>
        ensures { Answers (condition word.now left.now operator.now right.now)
            self.old self.new result }
    {
        self.step(word)?;
        let a = self.value_of(left)?;
        let b = self.value_of(right)?;
        Ok(holds(operator, a, b))
    }
}
