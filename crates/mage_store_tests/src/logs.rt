// A desk whose stores keep logs and may lie.
ghost use Rattle.std.specs.Prelude.{◌≡◌};

use mage_base::{Desk, DeskFails, Failed, MemDesk, Memory, Store};
use mage_log_store::{Lie, LogDesk};
use std::alloc::Global;
use std::test::Fail;

// What is read of page 1 after it was written.
fn used<S: Store>(store: &mut S, into: &mut [u8; 4]) -> Result<(), Failed>
    requires { (S.tells store.old).page_bytes ≡ 4 }
{
    store.write(1, b"abcd")?;
    store.read(1, into)
}

// The same of a store of the desk, which is given back. Which of the calls failed.
fn used_by<D: Desk>(desk: &mut D, alloc: Global, into: &mut [u8; 4]) -> &'static str {
    let Ok(mut store) = desk.store(alloc, 3, 0, 2, 4) else {
        return "store";
    };
    let well = used(&mut store, into).is_ok();
    desk.give_store(3, 0, store);
    if well { "" } else { "read" }
}

// A desk whose stores have two calls; the first read is lied about.
fn desk_that_lies(alloc: Global) -> Result<LogDesk, Memory> {
    let inner = MemDesk::make(alloc, 3, &DeskFails::none(alloc))?;
    let lie = Lie {
        read: 0,
        byte: 3,
        mask: 1,
    };
    LogDesk::make(alloc, inner, 2, &[lie])
}

#[test]
fn hands_out_stores_that_lie(rt: HostRuntime) -> Result<(), Fail> {
    let mut desk = desk_that_lies(rt.alloc())?;
    for turn in [1, 2] {
        let mut into = [0; 4];
        assert_eq!(rt; used_by(&mut desk, rt.alloc(), &mut into), "");
        assert_eq!(rt; into.as_slice(), b"abce".as_slice());
        assert_eq!(rt; desk.reads(3), turn);
        assert_eq!(rt; desk.writes(3), turn);
    }
    assert!(rt; desk.say(b"say").is_ok());
    assert!(rt; desk.warn(b"warn").is_err());
    assert_eq!(rt; desk.said(), b"say".as_slice());
    assert_eq!(rt; desk.warned(), b"war".as_slice());
    Ok(())
}
