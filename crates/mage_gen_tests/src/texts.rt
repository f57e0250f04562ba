// The texts that are made of orders.
ghost use Rattle.mage_gen.specs.Generator.{IsOrder};

use crate::orders::{made, order, read};
use mage_base::Memory;
use mage_gen::GenOrder;
use mage_lex::LangFault;
use mage_printer::print;
use std::alloc::Global;

// Whether the input texts of an order are these.
fn has_inputs(
    alloc: Global,
    order: GenOrder,
    garbler: &str,
    evaluator: &str,
) -> Result<bool, Memory>
    requires { IsOrder order }
{
    let made = made(alloc, order)?;
    Ok(
        made.garbler.as_slice() == garbler.as_bytes()
            && made.evaluator.as_slice() == evaluator.as_bytes(),
    )
}

// Whether the text of an order's source is this.
fn has_text(alloc: Global, order: GenOrder, text: &str) -> Result<bool, Memory>
    requires { IsOrder order }
{
    let made = made(alloc, order)?;
    Ok(made.text.as_slice() == text.as_bytes())
}

// Whether a text is what is printed of its own source.
fn is_as_printed(alloc: Global, text: &[u8]) -> Result<bool, LangFault> {
    let source = read(alloc, text)?;
    Ok(print(alloc, &source)?.as_slice() == text)
}

// Whether this is so of an order's source.
fn prints_itself(alloc: Global, order: GenOrder) -> Result<bool, LangFault>
    requires { IsOrder order }
{
    let made = made(alloc, order)?;
    is_as_printed(alloc, made.text.as_slice())
}

#[test]
fn makes_the_numbers_one_after_another(rt: HostRuntime) -> Result<(), Memory> {
    let alloc = rt.alloc();
    let least = order(2, 1, 1, 0);
    assert!(rt;
        has_inputs(
            alloc,
            least,
            "1013904223\n1196435762\n",
            "3519870697\n2868466484\n"
        )?
    );
    let greatest = order(1, 1, 1, 4294967295);
    assert!(rt; has_inputs(alloc, greatest, "1012239698\n", "806866057\n")?);
    Ok(())
}

#[test]
fn makes_the_numbers_of_each_worker_and_row(rt: HostRuntime) -> Result<(), Memory> {
    let four = "1025555898\n3923423697\n2630631676\n3981355051\n";
    let eight =
        "211918734\n3675562389\n1550419440\n228089999\n295425186\n4225977241\n4178165796\n2281704755\n";
    assert!(rt; has_inputs(rt.alloc(), order(2, 2, 2, 7), four, eight)?);
    Ok(())
}

#[test]
fn leaves_the_inputs_of_too_long_a_source_empty(rt: HostRuntime) -> Result<(), Memory> {
    let alloc = rt.alloc();
    assert!(rt; has_inputs(alloc, order(62501, 31, 1, 0), "", "")?);
    assert!(rt; has_inputs(alloc, order(65536, 1024, 16, 0), "", "")?);
    Ok(())
}

#[test]
fn makes_the_text_of_an_order(rt: HostRuntime) -> Result<(), Memory> {
    let text =
        "workers 3 ;\nconst N = 128 ;\nconst M = 10 ;\narray t : u32 [ M ] = lit u32 ( 0 ) ;\n\
        for w in 0 .. 3 {\non w {\ninput garbler x : u32 [ N ] ;\nfor r in 0 .. M {\n\
        input evaluator a : u32 [ N ] ;\nlet s = lit u32 ( 0 ) ;\nfor i in 0 .. N {\n\
        s = s + x [ i ] * a [ i ] ;\n}\non 0 {\nmove p = s ;\nt [ r ] = t [ r ] + p ;\n}\n}\n}\n}\n\
        for r in 0 .. M {\noutput t [ r ] ;\n}\n";
    assert!(rt; has_text(rt.alloc(), order(128, 10, 3, 9), text)?);
    Ok(())
}

#[test]
fn makes_texts_as_they_are_printed(rt: HostRuntime) -> Result<(), LangFault> {
    let alloc = rt.alloc();
    assert!(rt; prints_itself(alloc, order(1, 1, 1, 0))?);
    assert!(rt; prints_itself(alloc, order(2, 3, 16, 1))?);
    assert!(rt; prints_itself(alloc, order(65536, 1024, 16, 4294967295))?);
    Ok(())
}
