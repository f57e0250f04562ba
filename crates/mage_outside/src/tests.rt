use crate::made_up::{MadeUpFile, Step};
use crate::reading::read_all;
use crate::{FileSink, FileSource};
use mage_base::{DeskError, Sink, Source};
use std::alloc::{AllocError, Global};
use std::io::ErrorKind;
use std::process::Abort;
use std::test::Fail;

// Reads a file of this many bytes that gives what the steps say; its length, or why not.
fn reads(
    alloc: Global,
    length: usize,
    steps: &[Step],
    limit: u64,
) -> Result<Result<usize, DeskError>, AllocError> {
    let mut bytes = Vec::new(alloc);
    bytes.resize(length, b'x')?;
    let mut file = MadeUpFile::make(alloc, bytes.as_slice(), steps)?;
    Ok(match read_all(&mut file, alloc, limit) {
        Ok(found) => Ok(found.len()),
        Err(error) => Err(error),
    })
}

#[test]
fn reads_whole_files(rt: HostRuntime) -> Result<(), Fail> {
    let alloc = rt.alloc();
    let pieces = [Step::Moves(2), Step::Interrupted, Step::Moves(1)];
    assert_eq!(rt; reads(alloc, 5, &pieces, 5)?, Ok(5), "in pieces");
    assert_eq!(rt;
        reads(alloc, 5, &pieces, 4)?,
        Err(DeskError::TooLong),
        "above the limit"
    );
    let broken = [Step::Moves(2), Step::Fails(ErrorKind::Other)];
    assert_eq!(rt;
        reads(alloc, 5, &broken, 5)?,
        Err(DeskError::Fault),
        "in mid-stream"
    );
    let folder = [Step::Fails(ErrorKind::IsADirectory)];
    assert_eq!(rt;
        reads(alloc, 0, &folder, 5)?,
        Err(DeskError::Fault),
        "a folder"
    );
    assert_eq!(rt;
        reads(alloc, 9000, &[], 9000)?,
        Ok(9000),
        "longer than a piece"
    );
    assert_eq!(rt;
        reads(alloc, 9000, &[], 8999)?,
        Err(DeskError::TooLong),
        "longer than both"
    );
    Ok(())
}

fn takes(rt: &impl Abort, source: &mut FileSource<MadeUpFile>, count: Option<usize>, piece: &str) {
    let mut into = [b'-'; 3];
    assert_eq!(rt; source.take(&mut into).ok(), count, "{piece}");
    if count.is_some() {
        assert_eq!(rt; into.as_slice(), piece.as_bytes(), "{piece}");
    }
}

#[test]
fn takes_what_a_file_gives(rt: HostRuntime) -> Result<(), Fail> {
    let broken = [
        Step::Interrupted,
        Step::Moves(2),
        Step::Fails(ErrorKind::Other),
    ];
    let file = MadeUpFile::make(rt.alloc(), b"abcdef", &broken)?;
    let mut source = FileSource::make(rt.alloc(), file)?;
    takes(&rt, &mut source, Some(2), "ab-");
    takes(&rt, &mut source, None, "");
    takes(&rt, &mut source, Some(3), "cde");
    takes(&rt, &mut source, Some(1), "f--");
    takes(&rt, &mut source, Some(0), "---");
    assert_eq!(rt; source.faults(), 1);
    Ok(())
}

// Puts so many bytes twice, and gives the count of faults, and whether the rest could be written.
fn puts(alloc: Global, steps: &[Step], length: usize) -> Result<(u64, bool), Fail> {
    let mut bytes = Vec::new(alloc);
    bytes.resize(length, b'x')?;
    let mut sink = FileSink::make(alloc, MadeUpFile::make(alloc, b"", steps)?)?;
    let _ = sink.put(bytes.as_slice());
    let _ = sink.put(bytes.as_slice());
    let flushed = sink.flush().is_ok();
    Ok((sink.faults(), flushed))
}

#[test]
fn puts_what_a_file_takes(rt: HostRuntime) -> Result<(), Fail> {
    let alloc = rt.alloc();
    let pieces = [Step::Moves(2), Step::Interrupted, Step::Moves(1)];
    assert_eq!(rt; puts(alloc, &pieces, 5)?, (0, true), "in pieces");
    let full = [Step::Moves(2), Step::Fails(ErrorKind::StorageFull)];
    assert_eq!(rt;
        puts(alloc, &full, 5)?,
        (0, false),
        "a full disk, at the end"
    );
    assert_eq!(rt;
        puts(alloc, &full, 9000)?,
        (1, true),
        "a full disk, for once"
    );
    Ok(())
}
