// The words of the language's text, and what is refused, by hand.
use crate::{
    LangFault, LangKind, Text, Token, TokenKind, is_keyword, is_name, is_type_word, lex, symbols,
};
use std::alloc::Global;

// Whether the text is one word, spelled as it is.
fn is_word(alloc: Global, text: &str) -> Result<bool, LangFault> {
    let tokens = lex(alloc, text.as_bytes())?;
    Ok(match tokens.as_slice() {
        [token] => match &token.kind {
            TokenKind::Word(word) => word.bytes() == text.as_bytes(),
            _ => false,
        },
        _ => false,
    })
}

// Whether the text is one number of this value.
fn is_number(alloc: Global, text: &str, wanted: u128) -> Result<bool, LangFault> {
    let tokens = lex(alloc, text.as_bytes())?;
    Ok(match tokens.as_slice() {
        [token] => match &token.kind {
            TokenKind::Number(value) => *value == wanted,
            _ => false,
        },
        _ => false,
    })
}

fn is_kind_of_symbol(kind: &TokenKind, row: u8) -> bool {
    match kind {
        TokenKind::Symbol(found) => *found == row,
        _ => false,
    }
}

// Whether the text is the symbols of these rows.
fn are_symbols(alloc: Global, text: &[u8], rows: &[u8]) -> Result<bool, LangFault> {
    let tokens = lex(alloc, text)?;
    Ok(
        tokens.len() == rows.len()
            && tokens
                .iter()
                .zip(rows.iter())
                .all(|pair| is_kind_of_symbol(&pair.0.kind, *pair.1)),
    )
}

// Whether the text is refused for this at this place.
fn is_refused(alloc: Global, text: &[u8], kind: LangKind, line: u32, column: u32) -> bool {
    match lex(alloc, text) {
        Err(fault) => fault == LangFault::At { kind, line, column },
        Ok(_) => false,
    }
}

#[test]
fn reads_each_word(rt: HostRuntime) -> Result<(), LangFault> {
    for word in ["workers", "garbler", "on", "mux"] {
        assert!(rt;
            is_word(rt.alloc(), word)? && is_keyword(word.as_bytes()),
            "{word}"
        );
    }
    for word in ["u8", "u0", "u064"] {
        assert!(rt;
            is_word(rt.alloc(), word)? && is_type_word(word.as_bytes()),
            "{word}"
        );
    }
    for word in ["u", "u8x", "_", "x1_Z", "Let", "letter", "min", "count"] {
        assert!(rt;
            is_word(rt.alloc(), word)? && is_name(word.as_bytes()),
            "{word}"
        );
    }
    Ok(())
}

#[test]
fn reads_numbers(rt: HostRuntime) -> Result<(), LangFault> {
    let alloc = rt.alloc();
    assert!(rt; is_number(alloc, "007", 7)?, "leading zeros");
    let most = "170141183460469231731687303715884105727";
    assert!(rt; is_number(alloc, most, u128::MAX >> 1)?, "2^127 - 1");
    Ok(())
}

#[test]
fn takes_the_longest_symbol(rt: HostRuntime) -> Result<(), LangFault> {
    use symbols::{ASSIGN, DIVIDE, DOTS, EQUALS, LESS, SHIFT_LEFT, SHIFT_RIGHT, symbol_text};
    let alloc = rt.alloc();
    assert!(rt; are_symbols(alloc, b"....", &[DOTS, DOTS])?, "dots");
    assert!(rt; are_symbols(alloc, b"===", &[EQUALS, ASSIGN])?, "equals");
    assert!(rt;
        are_symbols(alloc, b"<<<>>", &[SHIFT_LEFT, LESS, SHIFT_RIGHT])?,
        "shifts"
    );
    assert!(rt; are_symbols(alloc, b"/ //", &[DIVIDE])?, "comment");
    assert_eq!(rt; symbol_text(SHIFT_LEFT), "<<");
    assert_eq!(rt; symbol_text(24), "");
    Ok(())
}

#[test]
fn refuses_at_the_place(rt: HostRuntime) {
    let alloc = rt.alloc();
    assert!(rt;
        is_refused(alloc, b"...", LangKind::BadByte, 1, 3),
        "a dot alone"
    );
    assert!(rt;
        is_refused(alloc, b"a > b", LangKind::BadByte, 1, 3),
        "a > alone"
    );
    assert!(rt;
        is_refused(alloc, b"a\n\xc3\xa4", LangKind::BadByte, 2, 1),
        "no ASCII"
    );
    assert!(rt;
        is_refused(alloc, b"x = 12u8;", LangKind::BadNumber, 1, 5),
        "a letter"
    );
    let large = b"//\n 170141183460469231731687303715884105728";
    assert!(rt;
        is_refused(alloc, large, LangKind::BadNumber, 2, 2),
        "2^127"
    );
    assert!(rt;
        is_refused(alloc, b"1a #", LangKind::BadNumber, 1, 1),
        "the first"
    );
}

#[test]
fn says_where_tokens_stand(rt: HostRuntime) -> Result<(), LangFault> {
    let tokens = lex(rt.alloc(), b"let x // y\n\t12;\n//")?;
    let wanted = [(0, 3, 1, 1), (4, 1, 1, 5), (12, 2, 2, 2), (14, 1, 2, 4)];
    assert_eq!(rt; tokens.len(), wanted.len());
    for (token, (start, len, line, column)) in tokens.iter().zip(wanted) {
        assert_eq!(rt;
            (token.start, token.len, token.line, token.column),
            (start, len, line, column)
        );
    }
    Ok(())
}

#[test]
fn bounds_the_text(rt: HostRuntime) -> Result<(), LangFault> {
    let most = vec![in rt.alloc(); b' '; 1_048_576]?;
    assert_eq!(rt; lex(rt.alloc(), &most)?.len(), 0);
    let long = vec![in rt.alloc(); b' '; 1_048_577]?;
    assert!(rt;
        is_refused(rt.alloc(), &long, LangKind::TooLong, 0, 0),
        "long"
    );
    Ok(())
}

#[test]
fn copies_tokens(rt: HostRuntime) -> Result<(), LangFault> {
    let tokens = lex(rt.alloc(), b"12")?;
    for token in &tokens {
        let copy: Token = token.try_clone()?;
        assert_eq!(rt;
            (copy.start, copy.len, copy.line),
            (token.start, token.len, token.line)
        );
    }
    let text = Text::make(rt.alloc(), b"ab")?;
    assert!(rt; text.clone()?.bytes() == text.bytes(), "text");
    Ok(())
}
