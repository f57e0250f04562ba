// Words and what they stand for, by hand.
use mage_lex::{LangFault, lex};
use mage_tree::{Callable, Class, bytes_of, callable_of, fits, width_of_type};

#[test]
fn knows_types(rt: HostRuntime) {
    assert_eq!(rt; width_of_type(b"u64"), Some(64));
    assert_eq!(rt; width_of_type(b"u128"), Some(128));
    for word in ["u0", "u08", "u129", "u200", "u1000", "u", "U8", "x8", ""] {
        assert_eq!(rt; width_of_type(word.as_bytes()), None, "{word}");
    }
}

#[test]
fn knows_words(rt: HostRuntime) -> Result<(), LangFault> {
    assert_eq!(rt; callable_of(b"count"), Some(Callable::Count));
    assert_eq!(rt; callable_of(b"mux"), None);
    let tokens = lex(rt.alloc(), b"count 12 ;")?;
    let wanted: [&[u8]; 3] = [b"count", b"", b""];
    assert_eq!(rt; tokens.len(), wanted.len());
    for (token, bytes) in tokens.iter().zip(wanted) {
        assert!(rt; bytes_of(token) == bytes, "bytes");
    }
    assert!(rt;
        tokens.iter().all(|token| !fits(token, Class::Type)),
        "no type"
    );
    Ok(())
}
