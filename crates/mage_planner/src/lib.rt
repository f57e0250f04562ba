//! The planner's top call: what `mage_plan` does with the words of a command, over any desk.
#![tactic(auto)]

mod check;
mod code;
mod command;
mod deal;
mod eval;
mod evaluating;
mod files;
mod garble;
mod garbling;
mod generated;
mod generating;
mod inputs;
mod label_files;
mod labels;
mod laws;
mod line;
mod perform;
mod plan;
mod program_line;
mod programs;
mod refusal;
mod running;
mod solo;
mod sources;
mod stats;
mod status;
mod stream_line;
mod top;
mod upgrade;
mod warning;
mod work;

pub use laws::{
    earlier_files_come_to_todays, evaluating_says_plain, generated_files_are_found,
    plans_are_carried, upgrades_keep_carried,
};
pub use mage_texts::{InputFault, read_inputs};
pub use refusal::{ProgramFault, Refusal, StreamFault};
pub use status::Status;
pub use top::planner;
pub use warning::refuse;
