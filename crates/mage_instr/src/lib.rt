//! The instructions of an oblivious program, the one table of their opcodes, and the plain data that the passes
//! of the planner hand to one another.
#![tactic(auto)]

mod directive;
mod fault;
mod inputs;
mod instr;
mod op;
mod opcodes;
mod party;
mod replaced;

pub use directive::{Directive, MemProgram};
pub use fault::{DriverFault, MachineFault};
pub use inputs::input_widths;
pub use instr::{Instr, NEVER, Place, Program, Step};
pub use op::Op;
pub use opcodes::{GREATEST_WIDTH, MOST_WORKERS, and_count, arity, result_width, width_ok};
pub use party::Party;
pub use replaced::{Job, Limits, Replaced, Spot, Tight};
