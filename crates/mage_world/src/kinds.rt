// The kind of a worker's next turn.
ghost use Rattle.std.specs.Prelude.{◌≡◌, None};
ghost use Rattle.mage_world.specs.Turns.{kind_at, kind_of_op};

use crate::event::Kind;
use mage_instr::{Directive, Op};

/// The kind of the turn at a directive; past the last one the driver is finished, once.
pub(crate) fn kind_at(next: Option<Directive>, finished: bool) -> Option<Kind>
    ensures { result ≡ kind_at next finished }
{
    match next {
        Some(Directive::Fresh { .. }) => Some(Kind::Do),
        Some(Directive::IssueIn { .. }) => Some(Kind::Ask),
        Some(Directive::FinishIn { .. }) => Some(Kind::Finish),
        Some(Directive::IssueOut { .. }) => Some(Kind::Ask),
        Some(Directive::FinishOut { .. }) => Some(Kind::Finish),
        Some(Directive::Do(job)) => Some(kind_of_op(job.op)),
        None => end_kind(finished),
    }
}

fn end_kind(finished: bool) -> Option<Kind>
    ensures { result ≡ kind_at None finished }
{
    if finished { None } else { Some(Kind::Do) }
}

fn kind_of_op(op: Op) -> Kind
    ensures { result ≡ kind_of_op op }
{
    match op {
        Op::Send => Kind::Push,
        Op::Recv => Kind::Pop,
        _ => Kind::Do,
    }
}
