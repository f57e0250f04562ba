// From the text of a source to its tree and its program.
ghost use Rattle.std.specs.Prelude.{◌≡◌, ◌≤◌, Ok, length, IfOk};
ghost use Rattle.std.specs.List.{All};
ghost use Rattle.mage_instr.specs.Sound.{IsSound};
ghost use Rattle.mage_lex.specs.Tokens.{tokens_of};
ghost use Rattle.mage_parser.specs.Faults.{parsed};
ghost use Rattle.mage_constants.specs.Answer.{Gives};
ghost use Rattle.mage_instr.specs.Opcodes.{most_workers};
ghost use Rattle.mage_linked.specs.Linked.{IsLinked};
ghost use Rattle.mage_unroll.specs.Limits.{MOST_INSTRS as most_instrs};
ghost use Rattle.mage_unroll.specs.Unrolled.{unrolled_of};
ghost use Rattle.mage_pipe.specs.Loading.{loaded_of};

use crate::Loaded;
use mage_instr::Program;
use mage_lex::{LangFault, Token, lex};
use mage_parser::parse;
use mage_tree::Source;
use mage_unroll::unroll;
use std::alloc::Global;

/// The tree of a source's text, and the program that it unrolls to: the passes of `mage_lex`, `mage_parser` and
/// `mage_unroll` in a row.
///
/// `text` is the bytes of a source. `At` with the first fault: of the bytes, and else of the tokens, and else of the
/// statements in the order of execution. `Memory` where there was none.
#[tactic(auto, unfolding(crate::specs::Loading::loaded_of))]
pub fn load(alloc: Global, text: &[u8]) -> Result<Loaded, LangFault>
    // The tree and the program, or the first fault.
    ensures loaded { Gives (λ loaded. loaded) result (loaded_of text.now) }
    // Each worker's instructions can run, one after the other.
    ensures sound { IfOk result (λ loaded. All IsSound loaded.program.workers) }
    // Each value that is sent is received at once, by the worker that it is sent to.
    ensures linked { IfOk result (λ loaded. IsLinked loaded.program) }
    ensures few { IfOk result (λ loaded. length loaded.program.workers ≤ most_workers) }
    ensures short { IfOk result (λ loaded. length loaded.program.order ≤ most_instrs) }
{
    let tokens = lexed(alloc, text)?;
    let source = parsed(alloc, text, &tokens)?;
    let program = unrolled(alloc, &source)?;
    Ok(Loaded { source, program })
}

fn lexed(alloc: Global, text: &[u8]) -> Result<Vec<Token>, LangFault>
    ensures exact { IfOk result (λ tokens. tokens_of text.now ≡ Ok tokens.items) }
    ensures tokens { Gives (λ tokens. tokens.items) result (tokens_of text.now) }
{
    lex(alloc, text)
}

fn parsed(alloc: Global, text: &[u8], tokens: &[Token]) -> Result<Source, LangFault>
    requires { tokens_of text.now ≡ Ok tokens.now }
    ensures { Gives (λ source. (source.workers, source.body)) result (parsed text.now tokens.now) }
{
    parse(alloc, text, tokens)
}

fn unrolled(alloc: Global, source: &Source) -> Result<Program, LangFault>
    ensures program { Gives (λ program. program) result
        (unrolled_of source.now.workers source.now.body) }
    ensures sound { IfOk result (λ program. All IsSound program.workers) }
    ensures linked { IfOk result IsLinked }
    ensures few { IfOk result (λ program. length program.workers ≤ most_workers) }
    ensures short { IfOk result (λ program. length program.order ≤ most_instrs) }
{
    unroll(alloc, source)
}
