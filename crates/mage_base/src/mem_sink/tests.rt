// A sink in memory takes what fits.
use super::*;
use std::process::Abort;
use std::test::Fail;

// Puts through the trait, as the crates above do.
fn put_by<S: Sink>(sink: &mut S, bytes: &[u8]) -> Result<(), Failed> {
    sink.put(bytes)
}

// Puts the bytes, and looks at what the sink has taken then.
fn puts(rt: &impl Abort, sink: &mut MemSink, bytes: &str, well: bool, taken: &str) {
    assert_eq!(rt; put_by(sink, bytes.as_bytes()).is_ok(), well, "{bytes}");
    assert_eq!(rt; sink.taken(), taken.as_bytes(), "{bytes}");
}

#[test]
fn puts_what_fits_and_fails_where_listed(rt: HostRuntime) -> Result<(), Fail> {
    let mut sink = MemSink::make(rt.alloc(), 5, &[1])?;
    puts(&rt, &mut sink, "abc", true, "abc");
    puts(&rt, &mut sink, "x", false, "abc");
    puts(&rt, &mut sink, "d", true, "abcd");
    puts(&rt, &mut sink, "efg", false, "abcde");
    puts(&rt, &mut sink, "", true, "abcde");
    assert_eq!(rt; sink.faults(), 2);
    sink.faults = u64::MAX;
    puts(&rt, &mut sink, "h", false, "abcde");
    assert_eq!(rt; sink.faults(), u64::MAX);
    Ok(())
}
