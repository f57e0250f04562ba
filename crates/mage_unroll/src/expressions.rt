// The instructions of an expression. It evaluates its operands from left to right, each wholly, and
// then emits its instruction.
ghost use Rattle.std.specs.Prelude.{◌≡◌, map};
ghost use Rattle.mage_tree.specs.declared.tree.Expr.TheOpen.{Expr-F};
ghost use Rattle.mage_constants.specs.Answer.{Gives};
ghost use Rattle.mage_unroll.specs.Expressions.{chained, all_shifted, all_of, expr_layer, variable_of};
ghost use Rattle.mage_unroll.specs.Unroller.{state_of, Does, Answers};

use crate::Variable;
use crate::operators::width_at;
use crate::unroller::Unroller;
use mage_instr::Op;
use mage_lex::{LangFault, Token};
use mage_tree::{ConstExpr, Expr};

/// The variable of an expression. `word` is the first token of the statement.
#[cycle(expressions)]
#[tactic(auto, unfolding(crate::specs::Expressions::variable_of, crate::specs::Expressions::expr_layer))]
pub fn variable_of(
    unroller: &mut Unroller<'_>,
    word: &Token,
    value: &Expr,
) -> Result<Variable, LangFault>
    ensures { Answers (variable_of value.now word.now) unroller.old unroller.new result }
{
    match value {
        Expr::Item(item) => {
            let held = unroller.own_place(item)?;
            Ok(held.variable)
        }
        Expr::Paren { inner, .. } => variable_of(unroller, word, inner.get()),
        Expr::Chain { first, rest } => {
            let first = variable_of(unroller, word, first.get())?;
            chained(unroller, word, first, rest.as_slice())
        }
        Expr::Shift { first, rest } => {
            let first = variable_of(unroller, word, first.get())?;
            all_shifted(unroller, word, first, rest.as_slice())
        }
        Expr::Not { of, .. } => {
            let operand = variable_of(unroller, word, of.get())?;
            unroller.compute(Op::Not, word, operand, 0)
        }
        Expr::Lit {
            word: keyword,
            ty,
            value,
        } => unroller.literal(word, keyword, ty, value),
        Expr::Resize { ty, of, .. } => {
            let width = width_at(ty)?;
            let operand = variable_of(unroller, word, of.get())?;
            unroller.resize(word, width, operand)
        }
        Expr::Mux {
            word: keyword,
            args,
        } => {
            let values = all_of(unroller, word, args.as_slice())?;
            unroller.choose(word, keyword, &values)
        }
        Expr::Call {
            word: keyword,
            args,
        } => {
            let values = all_of(unroller, word, args.as_slice())?;
            unroller.call(word, keyword, &values)
        }
    }
}

// A chain from the left.
#[cycle(expressions)]
fn chained(
    unroller: &mut Unroller<'_>,
    word: &Token,
    first: Variable,
    rest: &[(Token, Expr)],
) -> Result<Variable, LangFault>
    ensures { Answers (chained (map (λ term. (term.0, variable_of term.1)) rest.now) word.now first)
        unroller.old unroller.new result }
{
    let mut so_far = first;
    for term in rest {
        let operand = variable_of(unroller, word, &term.1)?;
        so_far = unroller.combine(word, &term.0, so_far, operand)?;
    }
    Ok(so_far)
}

// A chain of shifts from the left.
fn all_shifted(
    unroller: &mut Unroller<'_>,
    word: &Token,
    first: Variable,
    rest: &[(Token, ConstExpr)],
) -> Result<Variable, LangFault>
    ensures { Answers (all_shifted rest.now word.now first) unroller.old unroller.new result }
{
    let mut so_far = first;
    for term in rest {
        so_far = unroller.shift(word, &term.0, &term.1, so_far)?;
    }
    Ok(so_far)
}

// The variables of some expressions in their order.
#[cycle(expressions)]
fn all_of(
    unroller: &mut Unroller<'_>,
    word: &Token,
    args: &[Expr],
) -> Result<Vec<Variable>, LangFault>
    ensures { Gives (λ values. (values.items, state_of unroller.new)) result
        (all_of (map variable_of args.now) word.now (state_of unroller.old)) }
{
    let mut values = Vec::new(unroller.alloc);
    for arg in args {
        let value = variable_of(unroller, word, arg)?;
        values.push(value)?;
    }
    Ok(values)
}
