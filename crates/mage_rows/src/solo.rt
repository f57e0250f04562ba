// `solo` in plain over a desk in memory, and the exit codes. More rows of the language, its inputs and its limits are in tools/rows, and are
// run with the program.
use crate::cases::{SOLO, SUM, refused, says};
use mage_planner::Status;

#[test]
fn solo_says_the_outputs(rt: HostRuntime) {
    let alloc = rt.alloc();
    says(&rt, alloc, SUM, b"200", b"100", b"44\n");
    refused(
        &rt,
        alloc,
        SOLO,
        SUM,
        b"300",
        b"100",
        Status::InputText,
        b"mage: input garbler line 1\n",
    );
}

#[test]
fn codes(rt: HostRuntime) {
    assert_eq!(rt; Status::Ok.code(), 0);
    assert_eq!(rt; Status::Words.code(), 2);
    assert_eq!(rt; Status::Language.code(), 3);
    assert_eq!(rt; Status::Limits.code(), 4);
    assert_eq!(rt; Status::InputText.code(), 6);
    assert_eq!(rt; Status::Desk.code(), 7);
    assert_eq!(rt; Status::Memory.code(), 9);
}
