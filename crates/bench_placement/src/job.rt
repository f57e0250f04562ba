// What the words ask for.
ghost use Rattle.std.specs.Prelude.{IfSome, IfOk};
ghost use Rattle.mage_instr.specs.Limits.{IsPageSize};

use mage_base::Memory;
use std::alloc::{AllocError, AllocFailed};

/// Why nothing is printed.
#[derive(Clone, Copy)]
pub enum Trouble {
    Words,
    Memory,
    Print,
}

impl From<Memory> for Trouble {
    fn from(_: Memory) -> Self {
        Trouble::Memory
    }
}

impl From<AllocError> for Trouble {
    fn from(_: AllocError) -> Self {
        Trouble::Memory
    }
}

impl<T: Drop> From<AllocFailed<T>> for Trouble {
    fn from(_: AllocFailed<T>) -> Self {
        Trouble::Memory
    }
}

/// How long values live, and how wide the short-lived ones are: 32 bits, or 64 bits.
#[derive(Clone, Copy)]
pub enum Lives {
    Short,
    Wide,
    Long,
}

/// A list of `count` instructions, and whether it is placed.
#[derive(Clone, Copy)]
pub struct Job {
    pub lives: Lives,
    pub placed: bool,
    pub count: u32,
    pub page: u32,
}

// The words KIND COUNT PAGE.
pub fn job_of(words: &[String]) -> Result<Job, Trouble>
    ensures { IfOk result (λ job. IsPageSize job.page) }
{
    let [kind, count, page] = words else {
        return Err(Trouble::Words);
    };
    let (lives, placed) = kind_of(kind.as_str())?;
    let count = count.as_str().parse::<u32>().map_err(|_| Trouble::Words)?;
    let page = page_of(page.as_str()).ok_or(Trouble::Words)?;
    Ok(Job {
        lives,
        placed,
        count,
        page,
    })
}

fn kind_of(word: &str) -> Result<(Lives, bool), Trouble> {
    match word {
        "short" => Ok((Lives::Short, true)),
        "wide" => Ok((Lives::Wide, true)),
        "long" => Ok((Lives::Long, true)),
        "list-short" => Ok((Lives::Short, false)),
        "list-wide" => Ok((Lives::Wide, false)),
        "list-long" => Ok((Lives::Long, false)),
        _ => Err(Trouble::Words),
    }
}

// The shortest page, the longest, and one between.
fn page_of(word: &str) -> Option<u32>
    ensures { IfSome result IsPageSize }
{
    match word.parse::<u32>() {
        Ok(64) => Some(64),
        Ok(4096) => Some(4096),
        Ok(65536) => Some(65536),
        _ => None,
    }
}
