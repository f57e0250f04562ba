ghost use Rattle.std.specs.Prelude.{◌≤◌, length, IfOk};

use super::*;
use std::alloc::Global;
use std::env::FillError;
use std::test::Fail;

// A command line of a program's name and one word.
#[derive(Drop)]
struct MadeUpWords {
    alloc: Global,
    word: &'static [u8],
}

impl Alloc for MadeUpWords {
    type A = Global;

    fn alloc(&self) -> Global {
        self.alloc
    }
}

fn fill(buf: &mut [u8], bytes: &[u8]) -> Result<usize, FillError>
    ensures { IfOk result (λ count. count ≤ length buf.new) }
{
    if buf.len() < bytes.len() {
        return Err(FillError::TooLong);
    }
    buf[..bytes.len()].copy_from_slice(bytes);
    Ok(bytes.len())
}

impl Env for MadeUpWords {
    fn arg(&self, i: usize, buf: &mut [u8]) -> Result<usize, FillError> {
        match i {
            0 => fill(buf, b"mage_plan"),
            1 => fill(buf, self.word),
            _ => Err(FillError::NotPresent),
        }
    }

    fn var(&self, _name: &str, _buf: &mut [u8]) -> Result<usize, FillError> {
        Err(FillError::NotPresent)
    }

    fn var_at(&self, _i: usize, _buf: &mut [u8]) -> Result<usize, FillError> {
        Err(FillError::NotPresent)
    }
}

// How long the words are together, or why there are none.
fn length_of(alloc: Global, word: &'static [u8]) -> Result<usize, NoWords> {
    let words = command_words(&MadeUpWords { alloc, word })?;
    Ok(match words.first() {
        Some(first) => first.len(),
        None => 0,
    })
}

#[test]
fn reads_words_that_are_text(rt: HostRuntime) -> Result<(), Fail> {
    let alloc = rt.alloc();
    assert_eq!(rt; length_of(alloc, b"stats"), Ok(5));
    assert_eq!(rt; length_of(alloc, b"st\xffats"), Err(NoWords::NotText));
    Ok(())
}
