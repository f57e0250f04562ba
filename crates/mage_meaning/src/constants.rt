// Constants: one that has a fault counts as 0.
ghost use Rattle.std.specs.Prelude.{◌≡◌};
ghost use Rattle.std.specs.Option.{option_copied};
ghost use Rattle.mage_meaning.specs.Value.{as_constant, constant_in, number_in};
ghost use Rattle.mage_meaning.specs.Run.{moment_of};

use crate::known::Known;
use crate::run::Run;
use mage_constants::{KnownConstants, constant_of};
use mage_tree::ConstExpr;

// The constant that a name stands for, by its meaning.
fn as_constant(value: Option<&Known>) -> Option<i128>
    ensures { result ≡ as_constant (option_copied value.entry) }
{
    match value {
        Some(Known::Constant(value)) => Some(*value),
        Some(Known::Number(_)) | Some(Known::Array(_)) | None => None,
    }
}

impl KnownConstants for Run<'_> {
    ghost use Rattle.mage_meaning.specs.Value.{constants_in};
    ghost use Rattle.mage_scopes.specs.Scopes.{scopes_of};

    ghost constants = { λ run. constants_in (scopes_of run.names) };

    fn constant(&self, name: &[u8]) -> Option<i128> {
        as_constant(self.names.get(name))
    }
}

/// The value of a constant, and 0 where it has a fault.
#[tactic(auto, unfolding(crate::specs::Run::moment_of))]
pub fn constant_in(run: &Run<'_>, value: &ConstExpr) -> i128
    ensures { result ≡ constant_in value.now (moment_of run.now) }
{
    match constant_of(run, value) {
        Ok(value) => value,
        Err(_) => 0,
    }
}

/// The same without its sign, as an index, a length, an amount, a worker or a value.
pub fn number_in(run: &Run<'_>, value: &ConstExpr) -> u128
    ensures { result ≡ number_in value.now (moment_of run.now) }
{
    constant_in(run, value).unsigned_abs()
}
