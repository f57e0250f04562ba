// Wires that are received and sent again.
use crate::sent;
use mage_base::Memory;
use mage_instr::Spot;

#[test]
fn sends_what_came_and_zeros_behind(rt: HostRuntime) -> Result<(), Memory> {
    let spot = Spot {
        frame: 1,
        offset: 61,
    };
    let came = [1, 9, 9, 9, 9, 9, 9, 9, 9, 9, 9, 9, 9, 9, 9, 9];
    let one = [1, 0, 0, 0, 0, 0, 0, 0, 0, 0, 0, 0, 0, 0, 0, 0];
    assert_eq!(rt; sent(rt.alloc(), &came, spot, 2)?, (one, [0; 16]));
    Ok(())
}
