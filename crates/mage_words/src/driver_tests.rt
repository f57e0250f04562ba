// Which options each driver of `solo` takes, and the words of `gen`.
use super::{Driver, Gen, Request, read_words};
use crate::tests::{limits, refused, solo_in, words_of};
use std::alloc::Global;
use std::process::Abort;
use std::test::Fail;

// What the words ask `gen` for, where they do.
fn gen_in(alloc: Global, words: &[String]) -> Option<Gen<'_>> {
    match read_words(alloc, words) {
        Ok(Request::Gen(wanted)) => Some(wanted),
        _ => None,
    }
}

// Each driver takes its own options alone, and has those that it needs.
#[test]
fn options_of_other_drivers(rt: HostRuntime) -> Result<(), Fail> {
    refused(
        &rt,
        rt.alloc(),
        &[
            "solo --source s --driver plain --seed d",
            "solo --source s --driver plain --stream p",
            "solo --source s --driver plain --labels l",
            "solo --source s --garbler g --evaluator e --labels l",
            "solo --source s --driver garble",
            "solo --source s --driver garble --seed d",
            "solo --source s --driver garble --stream p",
            "solo --source s --driver garble --garbler g --stream p",
            "solo --source s --driver garble --seed d --stream p --evaluator e",
            "solo --source s --driver garble --seed d --stream p --labels l",
            "solo --source s --driver garble --seed d --stream p --stream q",
            "solo --source s --driver garble --seed d --stream -p",
            "solo --driver garble --seed d --stream p",
            "solo --source s --driver garbler --seed d --stream p",
            "solo --source s --driver eval",
            "solo --source s --driver eval --stream p",
            "solo --source s --driver eval --labels l",
            "solo --source s --driver eval --stream p --labels l --garbler g",
            "solo --source s --driver eval --stream p --labels l --evaluator e",
            "solo --source s --driver eval --stream p --labels l --seed d",
            "solo --driver eval --stream p --labels l",
            "solo --source s --driver evaluate --stream p --labels l",
            "solo --source s --driver eval --stream p --labels l --frames 0",
        ],
    )
}

// The line asks the driver `garble` for the seed `d`, the streams `p` and this file of the garbler.
fn garbles(rt: &impl Abort, alloc: Global, line: &str, file: Option<&str>) -> Result<(), Fail> {
    let words = words_of(alloc, line)?;
    let solo = solo_in(alloc, &words).ok_or("refused")?;
    assert_eq!(rt; solo.source, "s", "{line}");
    match solo.driver {
        Driver::Garble {
            garbler,
            seed,
            stream,
        } => {
            assert!(rt; garbler == file && seed == "d" && stream == "p", "{line}");
            Ok(())
        }
        _ => Err("another driver")?,
    }
}

// The line asks the driver `eval` for the streams `p` and the labels `l`.
fn evaluates(rt: &impl Abort, alloc: Global, line: &str) -> Result<(), Fail> {
    let words = words_of(alloc, line)?;
    let solo = solo_in(alloc, &words).ok_or("refused")?;
    assert_eq!(rt; solo.source, "s", "{line}");
    match solo.driver {
        Driver::Eval { stream, labels } => {
            assert!(rt; stream == "p" && labels == "l", "{line}");
            Ok(())
        }
        _ => Err("another driver")?,
    }
}

#[test]
fn files_of_the_drivers(rt: HostRuntime) -> Result<(), Fail> {
    garbles(
        &rt,
        rt.alloc(),
        "solo --source s --driver garble --seed d --stream p",
        None,
    )?;
    garbles(
        &rt,
        rt.alloc(),
        "solo --stream p --garbler g --page 64 --seed d --driver garble --source s",
        Some("g"),
    )?;
    evaluates(
        &rt,
        rt.alloc(),
        "solo --source s --driver eval --stream p --labels l",
    )?;
    evaluates(
        &rt,
        rt.alloc(),
        "solo --labels l --ahead 5 --source s --stream p --driver eval",
    )
}

#[test]
fn words_that_generate_nothing(rt: HostRuntime) -> Result<(), Fail> {
    refused(
        &rt,
        rt.alloc(),
        &[
            "gen",
            "gen --items 2",
            "gen --out o",
            "gen --items 0 --out o",
            "gen --items 65537 --out o",
            "gen --items two --out o",
            "gen --items 2 --out o --rows 0",
            "gen --items 2 --out o --rows 1025",
            "gen --items 2 --out o --workers 0",
            "gen --items 2 --out o --workers 17",
            "gen --items 2 --out o --workers 65537",
            "gen --items 2 --out o --number 4294967296",
            "gen --items 2 --out o --number -1",
            "gen --items 2 --out o --page 32",
            "gen --items 2 --out o --page 65536 --frames 57",
            "gen --items 2 --out o --source s",
            "gen --items 2 --out o --seed d",
            "gen --items 2 --items 2 --out o",
            "generate --items 2 --out o",
        ],
    )
}

#[test]
fn numbers_of_gen(rt: HostRuntime) -> Result<(), Fail> {
    let words = words_of(rt.alloc(), "gen --items 2 --out o")?;
    let wanted = gen_in(rt.alloc(), &words).ok_or("refused")?;
    assert!(rt; wanted.items == 2 && wanted.rows == 1 && wanted.workers == 1 && wanted.number == 0);
    assert!(rt; wanted.out == "o" && wanted.limits == limits(256, 64, 8, 64));
    let words = words_of(
        rt.alloc(),
        "gen --number 4294967295 --frames 3 --workers 16 --out o --rows 1024 --items 65536",
    )?;
    let wanted = gen_in(rt.alloc(), &words).ok_or("refused")?;
    assert!(rt; wanted.items == 65_536 && wanted.rows == 1_024);
    assert!(rt; wanted.workers == 16 && wanted.number == 4_294_967_295);
    assert!(rt; wanted.out == "o" && wanted.limits == limits(256, 3, 8, 64));
    Ok(())
}
