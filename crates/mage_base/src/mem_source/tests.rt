// A source in memory gives its bytes in order.
use super::*;
use std::process::Abort;
use std::test::Fail;

// Takes through the trait, as the crates above do.
fn take_by<S: Source>(source: &mut S, into: &mut [u8]) -> Result<usize, Failed> {
    source.take(into)
}

// Takes a piece of three bytes, and looks at the piece, at what is left and at the count of faults.
fn takes(rt: &impl Abort, source: &mut MemSource, count: Option<usize>, piece: &str, left: &str) {
    let mut into = [b'-'; 3];
    assert_eq!(rt; take_by(source, &mut into).ok(), count, "{left}");
    assert_eq!(rt; into.as_slice(), piece.as_bytes(), "{left}");
    assert_eq!(rt; source.left(), left.as_bytes(), "{left}");
}

#[test]
fn takes_in_order_and_fails_where_listed(rt: HostRuntime) -> Result<(), Fail> {
    let mut source = MemSource::make(rt.alloc(), b"abcde", &[1, 4])?;
    takes(&rt, &mut source, Some(3), "abc", "de");
    takes(&rt, &mut source, None, "---", "de");
    takes(&rt, &mut source, Some(2), "de-", "");
    takes(&rt, &mut source, Some(0), "---", "");
    assert_eq!(rt; source.faults(), 1);
    source.faults = u64::MAX;
    takes(&rt, &mut source, None, "---", "");
    assert_eq!(rt; source.faults(), u64::MAX);
    Ok(())
}
