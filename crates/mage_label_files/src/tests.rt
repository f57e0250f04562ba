// Labels in some bytes.
use crate::labels_in;
use std::test::Fail;

#[test]
fn labels_are_read(rt: HostRuntime) -> Result<(), Fail> {
    let alloc = rt.alloc();
    assert!(&rt; labels_in(alloc, 2, &[7; 32]).is_ok());
    assert!(&rt; labels_in(alloc, 0, &[]).is_ok());
    Ok(())
}
