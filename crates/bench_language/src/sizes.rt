// What is measured: reading a text, printing a source and unrolling it. Each answers the size of what it makes.
ghost use Rattle.std.specs.Prelude.{◌≡◌, List, length, IfOk, IfErr, IsOkAnd};
ghost use Rattle.mage_lex.specs.Tokens.{tokens_of};
ghost use Rattle.mage_lex.specs.declared.token.Token.{Token as TokenValue};
ghost use Rattle.mage_constants.specs.Answer.{Fails};
ghost use Rattle.mage_printer.specs.Printed.{printed};
ghost use Rattle.mage_tree.specs.Sources.{MOST_DEPTH as most_depth, IsSource};
ghost use Rattle.mage_unroll.specs.Unrolled.{unrolled_of};

use mage_base::Memory;
use mage_lex::{LangFault, lex};
use mage_parser::parse;
use mage_printer::print;
use mage_tree::Source;
use mage_unroll::unroll;
use std::alloc::Global;

/// A source, and how many tokens it was read from.
#[derive(Drop)]
pub struct Reading {
    pub source: Source,
    pub tokens: usize,
}

/// The source of a text.
pub fn read(alloc: Global, text: &[u8]) -> Result<Reading, LangFault>
    ensures tokens { IfOk result (λ reading.
        IsOkAnd (tokens_of text.now) (λ tokens. length tokens ≡ reading.tokens)) }
    ensures source { IfOk result (λ reading. IsOkAnd (tokens_of text.now)
        (IsSource most_depth reading.source.workers reading.source.body)) }
{
    let tokens = lex(alloc, text)?;
    let source = parse(alloc, text, &tokens)?;
    Ok(Reading {
        source,
        tokens: tokens.len(),
    })
}

/// How many bytes a source is printed as.
pub fn printed_bytes(alloc: Global, source: &Source) -> Result<usize, Memory>
    ensures { (tokens : List TokenValue)
        → IsSource most_depth source.now.workers source.now.body tokens
        → IfOk result (λ count. length (printed tokens) ≡ count) }
{
    let text = print(alloc, source)?;
    Ok(text.len())
}

/// How many instructions a source unrolls to.
pub fn instructions(alloc: Global, source: &Source) -> Result<usize, LangFault>
    ensures count { IfOk result (λ count. IsOkAnd (unrolled_of source.now.workers source.now.body)
        (λ program. length program.order ≡ count)) }
    ensures fault { IfErr result (λ fault.
        Fails fault (unrolled_of source.now.workers source.now.body)) }
{
    let program = unroll(alloc, source)?;
    Ok(program.order.len())
}
