// What the tests share.
use mage_lex::{LangFault, LangKind, lex};
use mage_parser::parse;
use mage_tree::Source;
use std::alloc::Global;

// The source of a text.
pub fn read(alloc: Global, text: &str) -> Result<Source, LangFault> {
    let tokens = lex(alloc, text.as_bytes())?;
    parse(alloc, text.as_bytes(), &tokens)
}

// Whether the text is a source.
pub fn is_read(alloc: Global, text: &str) -> bool {
    read(alloc, text).is_ok()
}

// Whether the text is refused for this at this place.
pub fn is_refused(alloc: Global, text: &str, wanted: LangKind, at: (u32, u32)) -> bool {
    match read(alloc, text) {
        Err(LangFault::At { kind, line, column }) => kind == wanted
            && line == at.0
            && column == at.1,
        _ => false,
    }
}

// Whether the text, of one line, has its first wrong token where the `@` stands, which isn't part
// of it.
pub fn is_wrong_at(alloc: Global, marked: &str) -> Result<bool, LangFault> {
    let Some((front, back)) = marked.split_once('@') else {
        return Ok(false);
    };
    let mut text = String::from_str(alloc, front)?;
    text.push_str(back)?;
    match read(alloc, text.as_str()) {
        Err(LangFault::At { kind, line, column }) => Ok(
            kind == LangKind::Syntax
                && line == 1
                && column as usize == front.len().saturating_add(1),
        ),
        _ => Ok(false),
    }
}

// The text, so many times.
fn repeated(alloc: Global, text: &str, times: usize) -> Result<String, LangFault> {
    let mut whole = String::new(alloc);
    for _turn in 0..times {
        whole.push_str(text)?;
    }
    Ok(whole)
}

// A text with an inner part between so many opening and closing parts.
pub fn nested(
    alloc: Global,
    around: (&str, &str),
    pair: (&str, &str),
    inner: &str,
    times: usize,
) -> Result<String, LangFault> {
    let mut whole = String::from_str(alloc, around.0)?;
    whole.push_str(repeated(alloc, pair.0, times)?.as_str())?;
    whole.push_str(inner)?;
    whole.push_str(repeated(alloc, pair.1, times)?.as_str())?;
    whole.push_str(around.1)?;
    Ok(whole)
}

// Whether the parts may stand so often, and with one more are too deep at this column.
pub fn is_deepest(
    alloc: Global,
    around: (&str, &str),
    pair: (&str, &str),
    inner: &str,
    most: usize,
    column: u32,
) -> Result<bool, LangFault> {
    let good = nested(alloc, around, pair, inner, most)?;
    let bad = nested(alloc, around, pair, inner, most.saturating_add(1))?;
    Ok(
        is_read(alloc, good.as_str())
            && is_refused(alloc, bad.as_str(), LangKind::TooDeep, (1, column)),
    )
}
