// What an operator does with values: the instructions of one node of an expression.
#![tactic(auto, unfolding(crate::specs::Unroller::state_of))]

ghost use Rattle.std.specs.Prelude.{◌≡◌, ◌≤◌, ◌∷◌, [], IfOk};
ghost use Rattle.mage_constants.specs.Answer.{Gives};
ghost use Rattle.mage_instr.specs.Opcodes.{greatest_width};
ghost use Rattle.mage_instr.specs.declared.op.Op.TheVariants as op;
ghost use Rattle.mage_tree.specs.declared.tree.Expr.TheOpen.{Expr-F};
ghost use Rattle.mage_unroll.specs.Expressions.{op_of, shift_of, amount_in, literal_in, of_one, of_two, combined, shifted, chosen, call_of_one, call_of_two, called, expr_layer};
ghost use Rattle.mage_unroll.specs.State.{instr_of, defined, width_at};
ghost use Rattle.mage_unroll.specs.Unroller.{Answers};

use crate::Variable;
use crate::effects::is_as_wide;
use crate::unroller::Unroller;
use mage_constants::{fault_at, number_below, row_of};
use mage_instr::{GREATEST_WIDTH, Instr, Op};
use mage_lex::symbols::{
    AND, DIVIDE, EQUALS, LESS, MINUS, OR, PLUS, REMAINDER, SHIFT_LEFT, SHIFT_RIGHT, TIMES, XOR,
};
use mage_lex::{LangFault, LangKind, Token};
use mage_tree::{Callable, ConstExpr, bytes_of, callable_of, width_of_type};

// The opcode of a binary operator; of another token none.
#[tactic(auto, unfolding(crate::specs::Expressions::op_of))]
fn op_of(token: &Token) -> Option<Op>
    ensures { result ≡ op_of token.now }
{
    match row_of(token) {
        PLUS => Some(Op::Add),
        MINUS => Some(Op::Sub),
        TIMES => Some(Op::Mul),
        DIVIDE => Some(Op::Div),
        REMAINDER => Some(Op::Rem),
        AND => Some(Op::And),
        XOR => Some(Op::Xor),
        OR => Some(Op::Or),
        EQUALS => Some(Op::Eq),
        LESS => Some(Op::Lt),
        _ => None,
    }
}

// The opcode of a shift; of another token none.
#[tactic(auto, unfolding(crate::specs::Expressions::shift_of))]
fn shift_of(token: &Token) -> Option<Op>
    ensures { result ≡ shift_of token.now }
{
    match row_of(token) {
        SHIFT_LEFT => Some(Op::Shl),
        SHIFT_RIGHT => Some(Op::Shr),
        _ => None,
    }
}

// A constant as the amount of a shift: 0 to 128.
fn amount_in(value: i128) -> Option<u64>
    ensures { result ≡ amount_in value }
{
    match number_below(u128::from(GREATEST_WIDTH) + 1, value) {
        Some(amount) => Some(amount as u64),
        None => None,
    }
}

// A constant as the value of a literal of this width: below 2 to the width, and below 2^64.
fn literal_in(width: u8, value: i128) -> Option<u64>
    ensures { result ≡ literal_in width value }
{
    match number_below(1 << width.min(64), value) {
        Some(literal) => Some(literal as u64),
        None => None,
    }
}

/// The width of a type word, and `BadWidth` at one that is no type.
pub fn width_at(ty: &Token) -> Result<u8, LangFault>
    ensures value { Gives (λ x. x) result (width_at ty.now) }
    ensures in_range { IfOk result (λ width. width ≤ greatest_width) }
{
    match width_of_type(bytes_of(ty)) {
        Some(width) => Ok(width),
        None => Err(fault_at(LangKind::BadWidth, ty)),
    }
}

impl Unroller<'_> {
    /// An opcode on one variable.
    #[tactic(auto)]
    pub fn compute(
        &mut self,
        op: Op,
        word: &Token,
        a: Variable,
        imm: u64,
    ) -> Result<Variable, LangFault>
        ensures { Answers (of_one op word.now a imm) self.old self.new result }
    {
        self.define(
            word,
            Instr {
                op,
                width: a.width,
                args: [a.index, 0, 0],
                imm,
            },
        )
    }

    /// An opcode on two variables that have to be equally wide; at this token if they aren't.
    #[tactic(auto, unfolding(crate::specs::Expressions::of_two))]
    pub fn compute_both(
        &mut self,
        op: Op,
        word: &Token,
        token: &Token,
        a: Variable,
        b: Variable,
    ) -> Result<Variable, LangFault>
        ensures { Answers (of_two op word.now token.now a b) self.old self.new result }
    {
        is_as_wide(token, a.width, b.width)?;
        self.define(
            word,
            Instr {
                op,
                width: a.width,
                args: [a.index, b.index, 0],
                imm: 0,
            },
        )
    }

    /// A binary operator on two variables.
    #[tactic(auto, unfolding(crate::specs::Expressions::combined))]
    pub fn combine(
        &mut self,
        word: &Token,
        operator: &Token,
        a: Variable,
        b: Variable,
    ) -> Result<Variable, LangFault>
        ensures { Answers (combined word.now operator.now a b) self.old self.new result }
    {
        let op = op_of(operator).ok_or(fault_at(LangKind::WidthDiffers, operator))?;
        self.compute_both(op, word, operator, a, b)
    }

    /// A shift by a constant.
    #[tactic(auto, unfolding(crate::specs::Unroller::state_of, crate::specs::Expressions::shifted))]
    pub fn shift(
        &mut self,
        word: &Token,
        operator: &Token,
        amount: &ConstExpr,
        a: Variable,
    ) -> Result<Variable, LangFault>
        ensures { Answers (shifted word.now operator.now amount.now a) self.old self.new result }
    {
        let value = self.value_of(amount)?;
        let imm = amount_in(value).ok_or(fault_at(LangKind::ConstFault, operator))?;
        let op = shift_of(operator).ok_or(fault_at(LangKind::WidthDiffers, operator))?;
        self.compute(op, word, a, imm)
    }

    /// A variable in another width.
    #[tactic(auto)]
    pub fn resize(&mut self, word: &Token, width: u8, a: Variable) -> Result<Variable, LangFault>
        ensures { Answers
            (defined word.now (instr_of op.Resize width (a.index ∷ 0 ∷ 0 ∷ []) a.width))
            self.old self.new result }
    {
        self.define(
            word,
            Instr {
                op: Op::Resize,
                width,
                args: [a.index, 0, 0],
                imm: u64::from(a.width),
            },
        )
    }

    /// A literal of a type.
    #[tactic(auto, unfolding(crate::specs::Unroller::state_of, crate::specs::Expressions::expr_layer))]
    pub fn literal(
        &mut self,
        word: &Token,
        keyword: &Token,
        ty: &Token,
        value: &ConstExpr,
    ) -> Result<Variable, LangFault>
        ensures { Answers (expr_layer (Expr-F.Lit keyword.now ty.now value.now) word.now)
            self.old self.new result }
    {
        let width = width_at(ty)?;
        let value = self.value_of(value)?;
        let imm = literal_in(width, value).ok_or(fault_at(LangKind::ConstFault, keyword))?;
        self.define(
            word,
            Instr {
                op: Op::Const,
                width,
                args: [0, 0, 0],
                imm,
            },
        )
    }

    /// The second variable where the first is 1, else the third. A choice has just three.
    #[tactic(auto, unfolding(crate::specs::Expressions::chosen))]
    pub fn choose(
        &mut self,
        word: &Token,
        keyword: &Token,
        values: &[Variable],
    ) -> Result<Variable, LangFault>
        ensures { Answers (chosen word.now keyword.now values.now) self.old self.new result }
    {
        match values {
            [condition, a, b] => {
                is_as_wide(keyword, condition.width, 1)?;
                is_as_wide(keyword, a.width, b.width)?;
                self.define(
                    word,
                    Instr {
                        op: Op::Mux,
                        width: a.width,
                        args: [condition.index, a.index, b.index],
                        imm: 0,
                    },
                )
            }
            _ => Err(fault_at(LangKind::WidthDiffers, keyword)),
        }
    }

    // An opcode on the operand of a call, which has just one.
    #[tactic(auto)]
    fn call_of_one(
        &mut self,
        op: Op,
        word: &Token,
        keyword: &Token,
        values: &[Variable],
    ) -> Result<Variable, LangFault>
        ensures { Answers (call_of_one op word.now keyword.now values.now)
            self.old self.new result }
    {
        match values {
            [a] => self.compute(op, word, *a, 0),
            _ => Err(fault_at(LangKind::WidthDiffers, keyword)),
        }
    }

    // An opcode on the operands of a call, which has just two.
    #[tactic(auto)]
    fn call_of_two(
        &mut self,
        op: Op,
        word: &Token,
        keyword: &Token,
        values: &[Variable],
    ) -> Result<Variable, LangFault>
        ensures { Answers (call_of_two op word.now keyword.now values.now)
            self.old self.new result }
    {
        match values {
            [a, b] => self.compute_both(op, word, keyword, *a, *b),
            _ => Err(fault_at(LangKind::WidthDiffers, keyword)),
        }
    }

    /// A call on the variables of its operands.
    #[tactic(auto, unfolding(crate::specs::Expressions::called))]
    pub fn call(
        &mut self,
        word: &Token,
        keyword: &Token,
        values: &[Variable],
    ) -> Result<Variable, LangFault>
        ensures { Answers (called word.now keyword.now values.now) self.old self.new result }
    {
        match callable_of(bytes_of(keyword)) {
            Some(Callable::Min) => self.call_of_two(Op::Min, word, keyword, values),
            Some(Callable::Max) => self.call_of_two(Op::Max, word, keyword, values),
            Some(Callable::Count) => self.call_of_one(Op::Count, word, keyword, values),
            None => Err(fault_at(LangKind::WidthDiffers, keyword)),
        }
    }
}
