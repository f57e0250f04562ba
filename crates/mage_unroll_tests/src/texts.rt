// Texts that are read and unrolled, with the place of a fault marked by `@`.
use mage_instr::Program;
use mage_lex::{LangFault, LangKind, lex};
use mage_parser::parse;
use mage_tree::Source;
use mage_unroll::unroll;
use std::alloc::Global;

// The source of a text.
pub fn read(alloc: Global, text: &str) -> Result<Source, LangFault> {
    let tokens = lex(alloc, text.as_bytes())?;
    parse(alloc, text.as_bytes(), &tokens)
}

// The program of a text.
pub fn unrolled(alloc: Global, text: &str) -> Result<Program, LangFault> {
    let source = read(alloc, text)?;
    unroll(alloc, &source)
}

// How many instructions the program of a text has.
pub fn count(alloc: Global, text: &str) -> Option<usize> {
    match unrolled(alloc, text) {
        Ok(program) => Some(program.order.len()),
        Err(_) => None,
    }
}

// The text without the mark between its two parts.
fn joined(alloc: Global, before: &str, after: &str) -> Result<String, LangFault> {
    format!(in alloc; "{before}{after}").map_err(|_| LangFault::Memory)
}

// Whether the answer is a fault of this kind, just behind these bytes of the first line.
fn is_behind(answer: &Result<Program, LangFault>, kind: LangKind, before: &str) -> bool {
    match answer {
        Err(
            LangFault::At {
                kind: found,
                line,
                column,
            },
        ) => *found == kind && *line == 1 && *column as usize == before.len() + 1,
        _ => false,
    }
}

// Whether a text of one line has a fault of this kind at its mark.
pub fn is_refused(alloc: Global, kind: LangKind, marked: &str) -> bool {
    match marked.split_once('@') {
        Some((before, after)) => match joined(alloc, before, after) {
            Ok(text) => is_behind(&unrolled(alloc, text.as_str()), kind, before),
            Err(_) => false,
        },
        None => false,
    }
}

// The first of the texts that isn't refused so.
pub fn first_other<'a>(alloc: Global, kind: LangKind, texts: &[&'a str]) -> Option<&'a str> {
    for text in texts {
        if !is_refused(alloc, kind, text) {
            return Some(*text);
        }
    }
    None
}
