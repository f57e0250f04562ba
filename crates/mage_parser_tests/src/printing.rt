// Sources that are printed, by hand.
use crate::texts::read;
use mage_lex::LangFault;
use mage_printer::print;
use std::alloc::Global;

// Whether the text is printed so.
fn is_printed(alloc: Global, text: &str, wanted: &str) -> Result<bool, LangFault> {
    let source = read(alloc, text)?;
    Ok(print(alloc, &source)?.as_slice() == wanted.as_bytes())
}

#[test]
fn prints_tokens_with_what_follows_each(rt: HostRuntime) -> Result<(), LangFault> {
    let alloc = rt.alloc();
    assert!(rt; is_printed(alloc, "// nothing\n", "")?, "nothing");
    assert!(rt;
        is_printed(
            alloc,
            "workers 002;output a+b ;",
            "workers 2 ;\noutput a + b ;\n"
        )?,
        "workers"
    );
    assert!(rt;
        is_printed(
            alloc,
            "output min(a,max(b,c))/count(d);",
            "output min ( a , max ( b , c ) ) / count ( d ) ;\n"
        )?,
        "calls"
    );
    assert!(rt;
        is_printed(
            alloc,
            "if a==1{}else{x[0]=lit u8(7);}",
            "if a == 1 {\n}\nelse {\nx [ 0 ] = lit u8 ( 7 ) ;\n}\n"
        )?,
        "if"
    );
    Ok(())
}

#[test]
fn prints_each_form_as_it_is_read(rt: HostRuntime) -> Result<(), LangFault> {
    let text = "workers 3 ;\nconst n = 1 + 2 * - 3 / ( 4 - m ) % 5 ;\ninput garbler a : u8 ;\n\
        input evaluator b : u8 [ n + 1 ] ;\nlet c = a ;\narray d : u32 [ 3 ] = lit u32 ( 7 ) ;\n\
        a = b [ 0 ] ;\nb [ i + 1 ] = ! ! a ;\nmove p = a [ 2 ] ;\non 0 {\non m {\n\
        output ( a < b [ 0 ] ) == c ;\n}\n}\nfor i in 0 .. n + 1 {\n\
        output x [ i ] | c ^ d & e << 1 >> n << ( 2 + 3 ) ;\n}\nif a + 1 == b {\n\
        output a - b * c ;\n}\nelse {\nif a < - 1 {\n}\n}\n\
        output mux ( c , a + d , resize u8 ( b == c ) ) ;\n";
    assert!(rt; is_printed(rt.alloc(), text, text)?, "each form");
    Ok(())
}
