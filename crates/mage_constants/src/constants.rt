// The value of a constant.
ghost use Rattle.std.specs.Prelude.{◌≡◌, map};
ghost use Rattle.mage_constants.specs.Answer.{or_fault};
ghost use Rattle.mage_constants.specs.Constants.{const_chain, constant_of};
ghost use Rattle.mage_lex.specs.declared.fault.LangKind.TheVariants as wrong;
ghost use Rattle.mage_tree.specs.Words.{bytes_of};

use crate::faults::fault_at;
use crate::known::KnownConstants;
use crate::operators::{negated, operated, ranged};
use crate::tokens::{number_of, row_of};
use mage_lex::{LangFault, LangKind, Token};
use mage_tree::{ConstExpr, bytes_of};

// The value, and `ConstFault` at the token where there is none.
fn in_range(token: &Token, value: Option<i128>) -> Result<i128, LangFault>
    ensures { result ≡ or_fault wrong.ConstFault token.now value }
{
    value.ok_or(fault_at(LangKind::ConstFault, token))
}

// The constant that a name stands for, and `UnknownName` at it where it stands for none.
fn named<N: KnownConstants>(names: &N, name: &Token) -> Result<i128, LangFault>
    ensures { result ≡ or_fault wrong.UnknownName name.now
        (N.constants names.now (bytes_of name.now)) }
{
    let value = names.constant(bytes_of(name));
    value.ok_or(fault_at(LangKind::UnknownName, name))
}

/// The value of a constant, or its first fault from the left: a name that stands for no constant,
/// or an operator that has no value in range. It takes no memory.
#[cycle(constants)]
#[tactic(auto, unfolding(crate::specs::Constants::constant_of, crate::specs::Constants::const_layer))]
pub fn constant_of<N: KnownConstants>(names: &N, value: &ConstExpr) -> Result<i128, LangFault>
    ensures { result ≡ constant_of value.now (N.constants names.now) }
{
    match value {
        ConstExpr::Number(token) => in_range(token, ranged(number_of(token))),
        ConstExpr::Name(token) => named(names, token),
        ConstExpr::Paren { inner, .. } => constant_of(names, inner.get()),
        ConstExpr::Minus { op, of } => {
            let value = constant_of(names, of.get())?;
            in_range(op, negated(value))
        }
        ConstExpr::Chain { first, rest } => {
            let value = constant_of(names, first.get())?;
            chained(names, value, rest.as_slice())
        }
    }
}

// A chain from the left: each operator takes what stands so far and its right operand.
#[cycle(constants)]
fn chained<N: KnownConstants>(
    names: &N,
    first: i128,
    rest: &[(Token, ConstExpr)],
) -> Result<i128, LangFault>
    ensures { result ≡ const_chain (map (λ term. (term.0, constant_of term.1)) rest.now)
        (N.constants names.now) first }
{
    let mut so_far = first;
    for term in rest {
        let operand = constant_of(names, &term.1)?;
        so_far = in_range(&term.0, operated(row_of(&term.0), so_far, operand))?;
    }
    Ok(so_far)
}
