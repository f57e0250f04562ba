// The code of each kind of directive.
ghost use Rattle.std.specs.Prelude.{◌≡◌};
ghost use Rattle.mage_file.specs.Codes.{code_of, kind_of, kind_with};
ghost use Rattle.mage_file.specs.Rules.{is_const};

use crate::kind::Kind;
use mage_instr::{Directive, Op};

// Each kind once.
const KINDS: [Kind; 28] = [
    Kind::Do(Op::Input),
    Kind::Do(Op::Const),
    Kind::Do(Op::Output),
    Kind::Do(Op::Add),
    Kind::Do(Op::Sub),
    Kind::Do(Op::Mul),
    Kind::Do(Op::And),
    Kind::Do(Op::Or),
    Kind::Do(Op::Xor),
    Kind::Do(Op::Not),
    Kind::Do(Op::Eq),
    Kind::Do(Op::Lt),
    Kind::Do(Op::Mux),
    Kind::Do(Op::Shl),
    Kind::Do(Op::Shr),
    Kind::Do(Op::Resize),
    Kind::Do(Op::Send),
    Kind::Do(Op::Recv),
    Kind::Do(Op::Div),
    Kind::Do(Op::Rem),
    Kind::Do(Op::Count),
    Kind::Do(Op::Min),
    Kind::Do(Op::Max),
    Kind::Fresh,
    Kind::IssueIn,
    Kind::FinishIn,
    Kind::IssueOut,
    Kind::FinishOut,
];

// The number of an opcode, or the code of another directive.
pub fn code(kind: Kind) -> u8
    ensures { result ≡ code_of kind }
{
    match kind {
        Kind::Do(op) => op as u8,
        Kind::Fresh => 0x40,
        Kind::IssueIn => 0x41,
        Kind::FinishIn => 0x42,
        Kind::IssueOut => 0x43,
        Kind::FinishOut => 0x44,
    }
}

// The kind of a directive.
pub fn kind_of(directive: Directive) -> Kind
    ensures { result ≡ kind_of directive }
{
    match directive {
        Directive::Do(job) => Kind::Do(job.op),
        Directive::Fresh { .. } => Kind::Fresh,
        Directive::IssueIn { .. } => Kind::IssueIn,
        Directive::FinishIn { .. } => Kind::FinishIn,
        Directive::IssueOut { .. } => Kind::IssueOut,
        Directive::FinishOut { .. } => Kind::FinishOut,
    }
}

// The kind with this code, if there is one.
#[tactic(auto, unfolding(crate::specs::Codes::kind_with))]
pub fn with_code(byte: u8) -> Option<Kind>
    ensures { result ≡ kind_with byte }
{
    KINDS.iter().copied().find(|kind| code(*kind) == byte)
}

#[tactic(auto, unfolding(crate::specs::Rules::is_const))]
pub fn is_const(op: Op) -> bool
    ensures { result ≡ is_const op }
{
    matches!(op, Op::Const)
}
