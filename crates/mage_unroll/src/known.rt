// The constants that names stand for.
ghost use Rattle.std.specs.Prelude.{◌≡◌};
ghost use Rattle.std.specs.Option.{option_copied};
ghost use Rattle.mage_constants.specs.Answer.{Gives};
ghost use Rattle.mage_constants.specs.Constants.{constant_of};
ghost use Rattle.mage_unroll.specs.State.{as_constant, constants_of};
ghost use Rattle.mage_unroll.specs.Unroller.{state_of};

use crate::Named;
use crate::unroller::Unroller;
use mage_constants::{KnownConstants, constant_of};
use mage_lex::LangFault;
use mage_tree::ConstExpr;

fn as_constant(value: Option<&Named>) -> Option<i128>
    ensures { result ≡ as_constant (option_copied value.entry) }
{
    match value {
        Some(Named::Constant(value)) => Some(*value),
        Some(Named::Scalar(_)) | Some(Named::Array(_)) | None => None,
    }
}

impl KnownConstants for Unroller<'_> {
    ghost use Rattle.mage_unroll.specs.State.{constants_in};
    ghost use Rattle.mage_scopes.specs.Scopes.{scopes_of};

    ghost constants = { λ u. constants_in (scopes_of u.scopes) };

    fn constant(&self, name: &[u8]) -> Option<i128> {
        as_constant(self.scopes.get(name))
    }
}

impl Unroller<'_> {
    /// The value of a constant.
    #[tactic(auto, unfolding(crate::specs::Unroller::state_of), using(mage_constants::proofs::Trees::gives_same))]
    pub fn value_of(&self, value: &ConstExpr) -> Result<i128, LangFault>
        ensures { Gives (λ z. z) result (constant_of value.now (constants_of (state_of self.now))) }
    {
        constant_of(self, value)
    }
}
