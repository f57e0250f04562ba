// Input texts that are read, and their first faulty lines; texts of outputs.
ghost use Rattle.std.specs.Prelude.{All, IfOk};
ghost use Rattle.mage_texts.specs.InputText.{IsWidth};

use super::*;
use mage_base::Memory;
use std::alloc::{AllocError, Global};
use std::process::Abort;

// The widths that are 1 to 128.
fn widths_of_worker(alloc: Global, worker: &[u8]) -> Result<Vec<u8>, AllocError>
    ensures { IfOk result (λ widths. All IsWidth widths.items) }
{
    let mut widths = Vec::new(alloc);
    for width in worker {
        if *width >= 1 && *width <= 128 {
            widths.push(*width)?;
        }
    }
    Ok(widths)
}

fn widths_of(alloc: Global, workers: &[&[u8]]) -> Result<Vec<Vec<u8>>, AllocError>
    ensures { IfOk result (λ widths. All (λ own. All IsWidth own.items) widths.items) }
{
    let mut widths = Vec::new(alloc);
    for worker in workers {
        widths.push(widths_of_worker(alloc, worker)?)?;
    }
    Ok(widths)
}

// What reading gives for values of these widths, by worker, written out.
fn reads(
    rt: &impl Abort,
    alloc: Global,
    workers: &[&[u8]],
    text: &str,
    wanted: &str,
) -> Result<(), AllocError> {
    let widths = widths_of(alloc, workers)?;
    let read = read_inputs(alloc, text.as_bytes(), widths.as_slice());
    let said = format!(in alloc; "{read:?}")?;
    assert_eq!(rt; said.as_str(), wanted, "at {text:?}");
    Ok(())
}

#[test]
fn reads_the_line_of_a_value(rt: HostRuntime) -> Result<(), AllocError> {
    let alloc = rt.alloc();
    let one: &[&[u8]] = &[&[8]];
    reads(&rt, alloc, one, "200", "Ok([[200]])")?;
    reads(&rt, alloc, one, "255\n", "Ok([[255]])")?;
    reads(&rt, alloc, one, "256", "Err(Line { line: 1 })")?;
    reads(&rt, alloc, one, "", "Err(Line { line: 1 })")?;
    reads(&rt, alloc, one, "\n", "Err(Line { line: 1 })")?;
    reads(&rt, alloc, one, "1\n2\n", "Err(Line { line: 2 })")?;
    reads(&rt, alloc, one, "1\n\n", "Err(Line { line: 2 })")?;
    reads(&rt, alloc, one, "1\r\n", "Err(Line { line: 1 })")?;
    reads(&rt, alloc, one, "+1", "Err(Line { line: 1 })")?;
    reads(&rt, alloc, one, " 1", "Err(Line { line: 1 })")?;
    reads(&rt, alloc, one, "1x", "Err(Line { line: 1 })")
}

#[test]
fn reads_up_to_39_digits(rt: HostRuntime) -> Result<(), AllocError> {
    let alloc = rt.alloc();
    let fault = "Err(Line { line: 1 })";
    let bit: &[&[u8]] = &[&[1]];
    let longest = "000000000000000000000000000000000000001";
    let longer = "0000000000000000000000000000000000000001";
    reads(&rt, alloc, bit, longest, "Ok([[1]])")?;
    reads(&rt, alloc, bit, longer, fault)?;
    reads(&rt, alloc, &[&[64]], "18446744073709551616", fault)?;
    let widest: &[&[u8]] = &[&[128]];
    let greatest = "340282366920938463463374607431768211455";
    let said = "Ok([[340282366920938463463374607431768211455]])";
    reads(&rt, alloc, widest, greatest, said)?;
    let more = "340282366920938463463374607431768211456";
    reads(&rt, alloc, widest, more, fault)?;
    let most = "999999999999999999999999999999999999999";
    reads(&rt, alloc, widest, most, fault)
}

#[test]
fn reads_the_values_of_each_worker(rt: HostRuntime) -> Result<(), AllocError> {
    let alloc = rt.alloc();
    let three: &[&[u8]] = &[&[8, 3], &[], &[64]];
    reads(&rt, alloc, three, "1\n7\n300", "Ok([[1, 7], [], [300]])")?;
    reads(&rt, alloc, three, "1\n8\n300", "Err(Line { line: 2 })")?;
    reads(&rt, alloc, three, "1\n7", "Err(Line { line: 3 })")?;
    reads(&rt, alloc, &[&[]], "", "Ok([[]])")?;
    reads(&rt, alloc, &[&[]], "\n", "Err(Line { line: 1 })")?;
    reads(&rt, alloc, &[], "", "Ok([])")
}

#[test]
fn says_outputs(rt: HostRuntime) -> Result<(), Memory> {
    let alloc = rt.alloc();
    let one = vec![in alloc; vec![in alloc; 44]?]?;
    assert_eq!(rt;
        output_text(alloc, one.as_slice())?.as_slice(),
        "44\n".as_bytes()
    );
    let two = vec![in alloc; vec![in alloc]?, vec![in alloc; 0, u128::MAX]?]?;
    assert_eq!(rt;
        output_text(alloc, two.as_slice())?.as_slice(),
        "0\n340282366920938463463374607431768211455\n".as_bytes()
    );
    Ok(())
}
