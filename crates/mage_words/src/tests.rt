// Words that ask for something, with the values that stand by default, and words that don't.
use super::{Check, Deal, Driver, Plan, Request, Solo, Stats, Upgrade, WordsFault, read_words};
use mage_instr::Limits;
use std::alloc::{AllocError, Global};
use std::process::Abort;
use std::test::Fail;

// The words of a line, which single spaces part.
pub fn words_of(alloc: Global, line: &str) -> Result<Vec<String>, AllocError> {
    let mut words = Vec::new(alloc);
    for word in line.split(' ') {
        words.push(String::from_str(alloc, word)?)?;
    }
    Ok(words)
}

// What the words ask `solo` for, where they do.
pub fn solo_in(alloc: Global, words: &[String]) -> Option<Solo<'_>> {
    match read_words(alloc, words) {
        Ok(Request::Solo(solo)) => Some(solo),
        _ => None,
    }
}

// What the words ask `stats` for, where they do.
fn stats_in(alloc: Global, words: &[String]) -> Option<Stats<'_>> {
    match read_words(alloc, words) {
        Ok(Request::Stats(stats)) => Some(stats),
        _ => None,
    }
}

// What the words ask `deal` for, where they do.
fn deal_in(alloc: Global, words: &[String]) -> Option<Deal<'_>> {
    match read_words(alloc, words) {
        Ok(Request::Deal(deal)) => Some(deal),
        _ => None,
    }
}

// What the words ask `plan` for, where they do.
fn plan_in(alloc: Global, words: &[String]) -> Option<Plan<'_>> {
    match read_words(alloc, words) {
        Ok(Request::Plan(plan)) => Some(plan),
        _ => None,
    }
}

// What the words ask `check` for, where they do.
fn check_in(alloc: Global, words: &[String]) -> Option<Check<'_>> {
    match read_words(alloc, words) {
        Ok(Request::Check(check)) => Some(check),
        _ => None,
    }
}

// What the words ask `upgrade` for, where they do.
fn upgrade_in(alloc: Global, words: &[String]) -> Option<Upgrade<'_>> {
    match read_words(alloc, words) {
        Ok(Request::Upgrade(upgrade)) => Some(upgrade),
        _ => None,
    }
}

// The input texts of a driver that runs in plain.
#[derive(Clone, Copy)]
struct Texts<'a> {
    garbler: Option<&'a str>,
    evaluator: Option<&'a str>,
}

fn plain_in<'a>(driver: Driver<'a>) -> Option<Texts<'a>> {
    match driver {
        Driver::Plain { garbler, evaluator } => Some(Texts { garbler, evaluator }),
        _ => None,
    }
}

// Each of the lines is refused.
pub fn refused(rt: &impl Abort, alloc: Global, lines: &[&str]) -> Result<(), Fail> {
    for line in lines {
        let words = words_of(alloc, line)?;
        assert!(rt;
            matches!(read_words(alloc, &words), Err(WordsFault::Words)),
            "{line}"
        );
    }
    Ok(())
}

pub fn limits(page: u32, frames: u32, buffer: u16, ahead: u32) -> Limits {
    Limits {
        page,
        frames,
        buffer,
        ahead,
    }
}

// The lines ask `solo` for these limits of the source `s`, without input texts.
fn limited(rt: &impl Abort, alloc: Global, cases: &[(&str, Limits)]) -> Result<(), Fail> {
    for (line, limits) in cases {
        let words = words_of(alloc, line)?;
        let solo = solo_in(alloc, &words).ok_or("refused")?;
        assert_eq!(rt; solo.source, "s", "{line}");
        let texts = plain_in(solo.driver).ok_or("another driver")?;
        assert!(rt;
            texts.garbler.is_none() && texts.evaluator.is_none(),
            "{line}"
        );
        assert_eq!(rt; solo.limits, *limits, "{line}");
    }
    Ok(())
}

// The lines ask `stats` for these limits of the source `s`.
fn stats_limited(rt: &impl Abort, alloc: Global, cases: &[(&str, Limits)]) -> Result<(), Fail> {
    for (line, limits) in cases {
        let words = words_of(alloc, line)?;
        let stats = stats_in(alloc, &words).ok_or("refused")?;
        assert_eq!(rt; stats.source, "s", "{line}");
        assert_eq!(rt; stats.limits, *limits, "{line}");
    }
    Ok(())
}

#[test]
fn no_words(rt: HostRuntime) {
    assert!(rt; matches!(read_words(rt.alloc(), &[]), Err(WordsFault::Words)));
}

#[test]
fn words_that_are_no_pairs(rt: HostRuntime) -> Result<(), Fail> {
    refused(
        &rt,
        rt.alloc(),
        &[
            "",
            "plans --source s",
            "plan --source s",
            "solos --source s",
            "sol --source s",
            "Solo --source s",
            "--source s",
            "solo --source",
            "solo s",
            "solo --source s --page",
            "solo --source s t",
            "solo --",
            "solo -- s",
            "solo --=x",
            "solo --=x y",
            "solo --source=x",
            "solo --source=x y",
            "solo --source s --page=64 64",
            "solo - s",
            "solo -source s",
            "solo source s",
            "solo ---source s",
            "solo --source -s",
            "solo --source --",
            "solo --source -",
            "solo --source ",
            "solo --source s --garbler ",
            "solo  --source s",
        ],
    )
}

#[test]
fn options_that_it_does_not_take(rt: HostRuntime) -> Result<(), Fail> {
    refused(
        &rt,
        rt.alloc(),
        &[
            "solo",
            "solo --garbler g",
            "solo --source s --source s",
            "solo --source s --source t",
            "solo --source s --garbler g --garbler g",
            "solo --garbler g --source s --garbler h",
            "solo --source s --page 64 --page 64",
            "solo --source s --sources t",
            "solo --source s --sourc t",
            "solo --source s --Source t",
            "solo --source s --out o",
            "solo --source s --seed f",
            "solo --source s --stream p",
            "solo --source s --labels p",
            "solo --source s --threads 1",
            "solo --source s --items 2",
            "solo --source s --number 2",
            "solo --source s --help x",
            "solo --help x",
            "solo --version x",
            "solo --source s --driver Plain",
            "solo --source s --driver plain --driver plain",
        ],
    )
}

#[test]
fn numbers_out_of_form_or_range(rt: HostRuntime) -> Result<(), Fail> {
    refused(
        &rt,
        rt.alloc(),
        &[
            "solo --source s --page 0",
            "solo --source s --page 32",
            "solo --source s --page 63",
            "solo --source s --page 65",
            "solo --source s --page 100",
            "solo --source s --page 65535",
            "solo --source s --page 131072",
            "solo --source s --page 64x",
            "solo --source s --page +64",
            "solo --source s --page 0x40",
            "solo --source s --page 6_4",
            "solo --source s --page 18446744073709551680",
            "solo --source s --page 99999999999999999999",
            "solo --source s --page 000000000000000000064",
            "solo --source s --frames 0",
            "solo --source s --frames 65537",
            "solo --source s --frames 4294967297",
            "solo --source s --buffer 4097",
            "solo --source s --buffer 65544",
            "solo --source s --ahead 1000001",
            "solo --source s --ahead ten",
            "solo --source s --page 65536 --frames 57",
            "solo --source s --page 4096 --frames 1017",
            "solo --source s --page 64 --frames 65536 --buffer 1",
        ],
    )
}

#[test]
fn limits_and_defaults(rt: HostRuntime) -> Result<(), Fail> {
    limited(
        &rt,
        rt.alloc(),
        &[
            ("solo --source s", limits(256, 64, 8, 64)),
            ("solo --source s --driver plain", limits(256, 64, 8, 64)),
            ("solo --source s --page 64", limits(64, 64, 8, 64)),
            (
                "solo --source s --page 00000000000000000064",
                limits(64, 64, 8, 64),
            ),
            (
                "solo --source s --page 65536 --frames 56",
                limits(65_536, 56, 8, 64),
            ),
            (
                "solo --source s --page 4096 --frames 1016",
                limits(4_096, 1_016, 8, 64),
            ),
            ("solo --source s --frames 01", limits(256, 1, 8, 64)),
            (
                "solo --source s --page 64 --frames 65536 --buffer 0",
                limits(64, 65_536, 0, 64),
            ),
            (
                "solo --source s --page 64 --frames 65535 --buffer 1",
                limits(64, 65_535, 1, 64),
            ),
            ("solo --source s --buffer 4096", limits(256, 64, 4_096, 64)),
            ("solo --source s --ahead 0", limits(256, 64, 8, 0)),
            (
                "solo --source s --ahead 1000000",
                limits(256, 64, 8, 1_000_000),
            ),
        ],
    )
}

#[test]
fn words_that_ask_stats_for_nothing(rt: HostRuntime) -> Result<(), Fail> {
    refused(
        &rt,
        rt.alloc(),
        &[
            "stats",
            "stats s",
            "stats --help",
            "stats --help x",
            "stats --page 64",
            "stats --source",
            "stats --source s --page",
            "stats --source s t",
            "stats --source=s",
            "stats --source -s",
            "stats -source s",
            "stat --source s",
            "Stats --source s",
            "stats solo --source s",
            "solo stats --source s",
            "stats --source s --source s",
            "stats --source s --frames 4 --frames 4",
            "stats --source s --garbler g",
            "stats --source s --evaluator e",
            "stats --source s --driver plain",
            "stats --source s --out o",
            "stats --source s --frames 0",
            "stats --source s --frames 65537",
            "stats --source s --page 32",
            "stats --source s --page 100",
            "stats --source s --page 131072",
            "stats --source s --buffer 4097",
            "stats --source s --ahead 1000001",
            "stats --source s --ahead ten",
            "stats --source s --page 65536 --frames 57",
            "stats --source s --page 65536 --frames 64 --buffer 1",
        ],
    )
}

#[test]
fn limits_of_stats(rt: HostRuntime) -> Result<(), Fail> {
    stats_limited(
        &rt,
        rt.alloc(),
        &[
            ("stats --source s", limits(256, 64, 8, 64)),
            (
                "stats --ahead 5 --buffer 2 --frames 3 --page 128 --source s",
                limits(128, 3, 2, 5),
            ),
            (
                "stats --frames 3 --page 128 --source s --ahead 5 --buffer 2",
                limits(128, 3, 2, 5),
            ),
            (
                "stats --page 0064 --source s --frames 0002",
                limits(64, 2, 8, 64),
            ),
            (
                "stats --source s --ahead 00000000000000000000",
                limits(256, 64, 8, 0),
            ),
            (
                "stats --source s --page 65536 --frames 56",
                limits(65_536, 56, 8, 64),
            ),
            (
                "stats --source s --page 65536 --frames 64 --buffer 0",
                limits(65_536, 64, 0, 64),
            ),
        ],
    )
}

#[test]
fn words_that_ask_deal_for_nothing(rt: HostRuntime) -> Result<(), Fail> {
    refused(
        &rt,
        rt.alloc(),
        &[
            "deal",
            "deal --source s",
            "deal --source s --seed d",
            "deal --source s --labels p",
            "deal --seed d --labels p",
            "deal --source s --seed d --labels",
            "deal --source s --seed d --labels -p",
            "deal --source s --seed d --labels p --labels p",
            "deal --source s --seed d --seed d --labels p",
            "deal --source s --seed d --labels p --garbler g",
            "deal --source s --seed d --labels p --driver plain",
            "deal --source s --seed d --labels p --page 64",
            "deal --source s --seed d --labels p --stream t",
            "deals --source s --seed d --labels p",
            "Deal --source s --seed d --labels p",
        ],
    )
}

// The line asks `deal` for these files.
fn dealt(rt: &impl Abort, alloc: Global, line: &str, evaluator: Option<&str>) -> Result<(), Fail> {
    let words = words_of(alloc, line)?;
    let deal = deal_in(alloc, &words).ok_or("refused")?;
    assert!(rt;
        deal.source == "s" && deal.seed == "d" && deal.labels == "p",
        "{line}"
    );
    assert!(rt; deal.evaluator == evaluator, "{line}");
    Ok(())
}

#[test]
fn files_of_deal(rt: HostRuntime) -> Result<(), Fail> {
    dealt(&rt, rt.alloc(), "deal --source s --seed d --labels p", None)?;
    dealt(
        &rt,
        rt.alloc(),
        "deal --labels p --evaluator e --seed d --source s",
        Some("e"),
    )
}

#[test]
fn words_that_ask_for_no_memory_program(rt: HostRuntime) -> Result<(), Fail> {
    refused(
        &rt,
        rt.alloc(),
        &[
            "plan",
            "plan --source s",
            "plan --out o",
            "plan --source s --out o --driver plain",
            "plan --source s --out o --frames 0",
            "plan --source s --out o --page 65536 --frames 57",
            "plan --source s --out o --program p",
            "check --source s",
            "check --program p",
            "check --source s --program p --frames 2",
            "check --source s --program p --out o",
            "upgrade --program p",
            "upgrade --out o",
            "upgrade --program p --out o --source s",
            "upgrade --program p --out o --out o",
        ],
    )
}

#[test]
fn files_of_memory_programs(rt: HostRuntime) -> Result<(), Fail> {
    let words = words_of(rt.alloc(), "plan --out o --frames 2 --source s --buffer 1")?;
    let plan = plan_in(rt.alloc(), &words).ok_or("refused")?;
    assert!(rt; plan.source == "s" && plan.out == "o");
    assert!(rt; plan.limits == limits(256, 2, 1, 64));
    let words = words_of(rt.alloc(), "check --program p --source s")?;
    let check = check_in(rt.alloc(), &words).ok_or("refused")?;
    assert!(rt; check.source == "s" && check.program == "p");
    let words = words_of(rt.alloc(), "upgrade --out o --program p")?;
    let upgrade = upgrade_in(rt.alloc(), &words).ok_or("refused")?;
    assert!(rt; upgrade.program == "p" && upgrade.out == "o");
    Ok(())
}

// All options that `solo` takes with the driver `plain`, as words.
const ALL: [&str; 16] = [
    "--source",
    "s=1",
    "--garbler",
    "g",
    "--evaluator",
    "e-",
    "--driver",
    "plain",
    "--page",
    "128",
    "--frames",
    "3",
    "--buffer",
    "2",
    "--ahead",
    "5",
];

// The pairs from pair `first` on, round to the one before it, forwards or backwards.
fn turned(alloc: Global, first: usize, backwards: bool) -> Result<Vec<String>, AllocError> {
    let mut words = Vec::new(alloc);
    words.push(String::from_str(alloc, "solo")?)?;
    for turn in 0..8usize {
        let pair = if backwards {
            first % 8 + 8 - turn
        } else {
            first % 8 + turn
        } % 8;
        words.push(String::from_str(alloc, ALL[2 * pair])?)?;
        words.push(String::from_str(alloc, ALL[2 * pair + 1])?)?;
    }
    Ok(words)
}

#[test]
fn options_of_solo_in_any_order(rt: HostRuntime) -> Result<(), Fail> {
    for first in 0..8usize {
        for backwards in [false, true] {
            let words = turned(rt.alloc(), first, backwards)?;
            let solo = solo_in(rt.alloc(), &words).ok_or("refused")?;
            assert_eq!(rt; solo.source, "s=1");
            let texts = plain_in(solo.driver).ok_or("another driver")?;
            assert!(rt; texts.garbler == Some("g") && texts.evaluator == Some("e-"));
            assert!(rt; solo.limits == limits(128, 3, 2, 5));
        }
    }
    Ok(())
}
