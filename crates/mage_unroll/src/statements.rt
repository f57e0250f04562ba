// The execution of statements that hold no others.
#![tactic(auto, unfolding(crate::specs::Unroller::state_of, crate::specs::Statements::stmt_layer))]

ghost use Rattle.std.specs.Prelude.{◌≡◌, ◌∷◌, [], replicate, IfOk, Ok};
ghost use Rattle.mage_instr.specs.declared.op.Op.TheVariants as op;
ghost use Rattle.mage_tree.specs.declared.tree.Stmt.TheOpen.{Stmt-F};
ghost use Rattle.mage_constants.specs.Answer.{Gives};
ghost use Rattle.mage_unroll.specs.State.{instr_of, defined, bound};
ghost use Rattle.mage_unroll.specs.Statements.{length_at, party_of, inputs, input_of, named_scalar, transferred, moved, stmt_layer};
ghost use Rattle.mage_unroll.specs.Unroller.{state_of, Does, Answers};
ghost use Rattle.mage_unroll.specs.declared.state.Named.TheVariants as named;

use crate::effects::is_as_wide;
use crate::expressions::variable_of;
use crate::operators::width_at;
use crate::state::Held;
use crate::unroller::Unroller;
use crate::{Array, Named, Scalar, Variable};
use mage_base::Memory;
use mage_constants::{fault_at, size_in};
use mage_instr::{Instr, Op};
use mage_lex::{LangFault, LangKind, Token};
use mage_tree::{ConstExpr, Expr, Item, bytes_of};
use sqlite_items::Items;
use std::alloc::Global;

// 0 for the garbler, 1 for the evaluator.
fn party_of(party: &Token) -> u64
    ensures { result ≡ party_of party.now }
{
    if bytes_of(party) == b"evaluator".as_slice() {
        1
    } else {
        0
    }
}

// The items of an array, each with the variable of this index.
fn copies(alloc: Global, count: usize, index: u32) -> Result<Items<u32>, Memory>
    ensures { IfOk result (λ items. items ≡ replicate count index) }
{
    Ok(Items::from_vec(vec![in alloc; index; count]?))
}

impl<'a> Unroller<'a> {
    /// The statement `const`.
    pub fn constant(
        &mut self,
        word: &Token,
        name: &'a Token,
        value: &ConstExpr,
    ) -> Result<(), LangFault>
        ensures { Does (stmt_layer (Stmt-F.Constant word.now name.now value.now))
            self.old self.new result }
    {
        self.step(word)?;
        self.is_free(name)?;
        let value = self.value_of(value)?;
        self.bind(name, Named::Constant(value))
    }

    // The length of an array, and `ConstFault` at its bracket where it is below 0.
    #[tactic(auto, unfolding(crate::specs::Unroller::state_of, crate::specs::Statements::length_at))]
    fn length_at(&self, size: &(Token, ConstExpr)) -> Result<u128, LangFault>
        ensures { Gives (λ x. x) result (length_at size.now (state_of self.now)) }
    {
        let value = self.value_of(&size.1)?;
        size_in(value).ok_or(fault_at(LangKind::ConstFault, &size.0))
    }

    fn bind_scalar(
        &mut self,
        name: &'a Token,
        worker: u8,
        variable: Variable,
    ) -> Result<(), LangFault>
        ensures { Does (λ s. Ok (bound name.now (named_scalar worker variable) s))
            self.old self.new result }
    {
        self.bind(name, Named::Scalar(Scalar { worker, variable }))
    }

    fn bind_array(&mut self, name: &'a Token, array: Array) -> Result<(), LangFault>
        ensures { Does (λ s. Ok (bound name.now (named.Array array) s)) self.old self.new result }
    {
        self.bind(name, Named::Array(array))
    }

    // One value that a party hands in.
    fn input_value(&mut self, word: &Token, party: &Token, width: u8) -> Result<Variable, LangFault>
        ensures { Answers
            (defined word.now (instr_of op.Input width (0 ∷ 0 ∷ 0 ∷ []) (party_of party.now)))
            self.old self.new result }
    {
        self.define(
            word,
            Instr {
                op: Op::Input,
                width,
                args: [0, 0, 0],
                imm: party_of(party),
            },
        )
    }

    // So many values that a party hands in.
    fn input_values(
        &mut self,
        count: u128,
        word: &Token,
        party: &Token,
        width: u8,
    ) -> Result<Items<u32>, LangFault>
        ensures { Answers (inputs count word.now party.now width []) self.old self.new result }
    {
        let mut items = Items::new(self.alloc);
        for _ in 0..count {
            self.step(word)?;
            let value = self.input_value(word, party, width)?;
            items.push(value.index)?;
        }
        Ok(items)
    }

    // The input of a scalar, or of an array of this length.
    #[tactic(auto, unfolding(crate::specs::Unroller::state_of, crate::specs::Statements::input_of))]
    fn input_of(
        &mut self,
        length: &Option<(Token, ConstExpr)>,
        word: &Token,
        party: &Token,
        name: &'a Token,
        width: u8,
    ) -> Result<(), LangFault>
        ensures { Does (input_of length.now word.now party.now name.now width)
            self.old self.new result }
    {
        let worker = self.worker;
        match length {
            None => {
                let variable = self.input_value(word, party, width)?;
                self.bind_scalar(name, worker, variable)
            }
            Some(size) => {
                let count = self.length_at(size)?;
                let items = self.input_values(count, word, party, width)?;
                let array = Array {
                    worker,
                    width,
                    items,
                };
                self.bind_array(name, array)
            }
        }
    }

    /// The statement `input`.
    pub fn input(
        &mut self,
        word: &Token,
        party: &Token,
        name: &'a Token,
        ty: &Token,
        length: &Option<(Token, ConstExpr)>,
    ) -> Result<(), LangFault>
        ensures { Does (stmt_layer (Stmt-F.Input word.now party.now name.now ty.now length.now))
            self.old self.new result }
    {
        self.step(word)?;
        self.is_free(name)?;
        let width = width_at(ty)?;
        self.input_of(length, word, party, name, width)
    }

    /// The statement `let`.
    pub fn declare(&mut self, word: &Token, name: &'a Token, value: &Expr) -> Result<(), LangFault>
        ensures { Does (stmt_layer (Stmt-F.Let word.now name.now value.now))
            self.old self.new result }
    {
        self.step(word)?;
        self.is_free(name)?;
        let worker = self.worker;
        let variable = variable_of(self, word, value)?;
        self.bind_scalar(name, worker, variable)
    }

    /// The statement `array`.
    pub fn array(
        &mut self,
        word: &Token,
        name: &'a Token,
        ty: &Token,
        length: &(Token, ConstExpr),
        eq: &Token,
        value: &Expr,
    ) -> Result<(), LangFault>
        ensures { Does
            (stmt_layer (Stmt-F.Array word.now name.now ty.now length.now eq.now value.now))
            self.old self.new result }
    {
        self.step(word)?;
        self.is_free(name)?;
        let width = width_at(ty)?;
        let count = self.length_at(length)?;
        let worker = self.worker;
        let variable = variable_of(self, word, value)?;
        is_as_wide(eq, width, variable.width)?;
        self.step_by(count, word)?;
        let items = copies(self.alloc, count as usize, variable.index)?;
        let array = Array {
            worker,
            width,
            items,
        };
        self.bind_array(name, array)
    }

    /// An assignment.
    pub fn rebind(&mut self, place: &Item, eq: &Token, value: &Expr) -> Result<(), LangFault>
        ensures { Does (stmt_layer (Stmt-F.Assign place.now eq.now value.now))
            self.old self.new result }
    {
        self.step(&place.name)?;
        let held = self.own_place(place)?;
        let variable = variable_of(self, &place.name, value)?;
        is_as_wide(eq, held.variable.width, variable.width)?;
        self.assign(&place.name, held.position, variable.index);
        Ok(())
    }

    // Sends a variable of another worker to the current one.
    #[tactic(auto, unfolding(crate::specs::Unroller::state_of, crate::specs::Statements::transferred))]
    fn transfer(&mut self, word: &Token, held: Held) -> Result<Variable, LangFault>
        ensures { Answers (transferred word.now held) self.old self.new result }
    {
        let width = held.variable.width;
        self.emit(
            word,
            held.worker,
            Instr {
                op: Op::Send,
                width,
                args: [held.variable.index, 0, 0],
                imm: u64::from(self.worker),
            },
        )?;
        self.define(
            word,
            Instr {
                op: Op::Recv,
                width,
                args: [0, 0, 0],
                imm: u64::from(held.worker),
            },
        )
    }

    // The name stands for what a place holds, which is sent where it is on another worker.
    #[tactic(auto, unfolding(crate::specs::Unroller::state_of, crate::specs::Statements::moved))]
    fn receive(&mut self, word: &Token, name: &'a Token, held: Held) -> Result<(), LangFault>
        ensures { Does (moved word.now name.now held) self.old self.new result }
    {
        let worker = self.worker;
        if held.worker == worker {
            return self.bind_scalar(name, worker, held.variable);
        }
        let variable = self.transfer(word, held)?;
        self.bind_scalar(name, worker, variable)
    }

    /// The statement `move`.
    pub fn take(&mut self, word: &Token, name: &'a Token, place: &Item) -> Result<(), LangFault>
        ensures { Does (stmt_layer (Stmt-F.Move word.now name.now place.now))
            self.old self.new result }
    {
        self.step(word)?;
        self.is_free(name)?;
        let held = self.place(place)?;
        self.receive(word, name, held)
    }

    /// The statement `output`.
    pub fn output(&mut self, word: &Token, value: &Expr) -> Result<(), LangFault>
        ensures { Does (stmt_layer (Stmt-F.Output word.now value.now)) self.old self.new result }
    {
        self.step(word)?;
        let worker = self.worker;
        let variable = variable_of(self, word, value)?;
        self.emit(
            word,
            worker,
            Instr {
                op: Op::Output,
                width: variable.width,
                args: [variable.index, 0, 0],
                imm: 0,
            },
        )
    }
}
