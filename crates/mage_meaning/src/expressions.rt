// The numbers of expressions.
ghost use Rattle.std.specs.Prelude.{◌≡◌, map};
ghost use Rattle.mage_bits.specs.Modular.{resize_mod};
ghost use Rattle.mage_meaning.specs.Run.{moment_of};
ghost use Rattle.mage_meaning.specs.Value.{wide, width_or_one, number_in, chained, all_shifted, chosen, called, number_of_expr};

use crate::arithmetic::{call_of_one, call_of_two, combined, inverted, resized, shifted, wide};
use crate::constants::number_in;
use crate::known::Wide;
use crate::places::item_at;
use crate::run::Run;
use crate::width::{Width, width_or_one};
use mage_lex::Token;
use mage_tree::{ConstExpr, Expr, bytes_of, callable_of};

// The number of a literal.
fn literal(run: &Run<'_>, ty: &Token, value: &ConstExpr) -> Wide
    ensures { result ≡ wide (width_or_one ty.now)
        (resize_mod (width_or_one ty.now) (number_in value.now (moment_of run.now))) }
{
    let width = width_or_one(ty);
    wide(width, width.reduced(number_in(run, value)))
}

// A chain of shifts from the left.
fn all_shifted(run: &Run<'_>, first: Wide, rest: &[(Token, ConstExpr)]) -> Wide
    ensures { result ≡ all_shifted rest.now first (moment_of run.now) }
{
    let mut so_far = first;
    for term in rest {
        so_far = shifted(&term.0, so_far, number_in(run, &term.1));
    }
    so_far
}

/// The number of an expression.
#[cycle(expressions)]
#[tactic(auto, unfolding(crate::specs::Value::number_of_expr, crate::specs::Value::value_layer))]
pub fn number_of_expr(run: &Run<'_>, value: &Expr) -> Wide
    ensures { result ≡ number_of_expr value.now (moment_of run.now) }
{
    match value {
        Expr::Item(item) => item_at(run, item),
        Expr::Paren { inner, .. } => number_of_expr(run, inner.get()),
        Expr::Chain { first, rest } => {
            let first = number_of_expr(run, first.get());
            chained(run, first, rest.as_slice())
        }
        Expr::Shift { first, rest } => {
            let first = number_of_expr(run, first.get());
            all_shifted(run, first, rest.as_slice())
        }
        Expr::Not { of, .. } => inverted(number_of_expr(run, of.get())),
        Expr::Lit { ty, value, .. } => literal(run, ty, value),
        Expr::Resize { ty, of, .. } => resized(width_or_one(ty), number_of_expr(run, of.get())),
        Expr::Mux { args, .. } => chosen(run, args.as_slice()),
        Expr::Call { word, args } => called(run, word, args.as_slice()),
    }
}

// A chain from the left.
#[cycle(expressions)]
fn chained(run: &Run<'_>, first: Wide, rest: &[(Token, Expr)]) -> Wide
    ensures { result ≡ chained (map (λ term. (term.0, number_of_expr term.1)) rest.now) first
        (moment_of run.now) }
{
    let mut so_far = first;
    for term in rest {
        let operand = number_of_expr(run, &term.1);
        so_far = combined(&term.0, so_far, operand);
    }
    so_far
}

// The second number where the first is 1, else the third.
#[cycle(expressions)]
fn chosen(run: &Run<'_>, args: &[Expr]) -> Wide
    ensures { result
        ≡ chosen (map (λ number. number (moment_of run.now)) (map number_of_expr args.now)) }
{
    match args {
        [condition, a, b] => {
            if number_of_expr(run, condition).value == 1 {
                number_of_expr(run, a)
            } else {
                number_of_expr(run, b)
            }
        }
        _ => wide(Width::new(1), 0),
    }
}

// A call on the numbers of its operands.
#[cycle(expressions)]
#[tactic(auto, unfolding(crate::specs::Value::called))]
fn called(run: &Run<'_>, word: &Token, args: &[Expr]) -> Wide
    ensures { result ≡ called word.now
        (map (λ number. number (moment_of run.now)) (map number_of_expr args.now)) }
{
    let call = callable_of(bytes_of(word));
    match args {
        [a] => call_of_one(call, number_of_expr(run, a)),
        [a, b] => call_of_two(call, number_of_expr(run, a), number_of_expr(run, b)),
        _ => wide(Width::new(1), 0),
    }
}
