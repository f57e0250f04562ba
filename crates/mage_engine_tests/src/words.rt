// Answers of a machine as words, one after another.
use crate::Answer;
use mage_base::Memory;
use mage_engine::{Kind, Turn, Why};
use mage_instr::MachineFault;
use std::alloc::Global;

/// A word for each answer: what was done, what is waited for, the end, or a fault.
pub fn words_of(alloc: Global, answers: &[Answer]) -> Result<String, Memory> {
    let mut words = String::new(alloc);
    for answer in answers {
        words.push_str(word_of(answer))?;
        words.push_str(" ")?;
    }
    Ok(words)
}

fn word_of(answer: &Answer) -> &'static str {
    match answer {
        Ok(Turn::Moved(kind)) => kind_word(*kind),
        Ok(Turn::Blocked(why)) => why_word(*why),
        Ok(Turn::Ended) => "ended",
        Err(fault) => fault_word(*fault),
    }
}

fn kind_word(kind: Kind) -> &'static str {
    match kind {
        Kind::Do => "do",
        Kind::Ask => "ask",
        Kind::Finish => "finish",
        Kind::Push => "push",
        Kind::Pop => "pop",
    }
}

fn why_word(why: Why) -> &'static str {
    match why {
        Why::Slot { .. } => "slot",
        Why::Full { .. } => "full",
        Why::Empty { .. } => "empty",
    }
}

fn fault_word(fault: MachineFault) -> &'static str {
    match fault {
        MachineFault::Store => "store",
        MachineFault::Damaged(_) => "damaged",
        MachineFault::Driver(_) => "driver",
    }
}
