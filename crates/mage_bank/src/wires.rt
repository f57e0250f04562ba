// Packed wires in one frame.
ghost use Rattle.std.specs.Prelude.{◌≡◌, ◌≤◌, ◌+◌, ◌*◌, length, map};
ghost use Rattle.std.specs.List.{flat_map, range_with_len};
ghost use Rattle.mage_steps.specs.Frames.{with_piece};
ghost use Rattle.mage_bank.specs.Bank.{wire_in};

use mage_driver::Driver;

// The wire at a place of a frame, counted in wires.
pub fn unpack_at<D: Driver>(driver: &D, frame: &[u8], place: usize) -> D::Wire
    requires within { (place + 1) * D.WIRE_BYTES ≤ length frame.now }
    ensures { result ≡ wire_in D.rules frame.now place }
{
    let size = D::WIRE_BYTES as usize;
    let at = place * size;
    driver.unpack(&frame[at..at + size])
}

// Packs a wire into a place of a frame.
pub fn pack_at<D: Driver>(driver: &D, wire: D::Wire, frame: &mut [u8], place: usize)
    requires within { (place + 1) * D.WIRE_BYTES ≤ length frame.old }
    ensures bytes { frame.new
        ≡ with_piece frame.old (place * D.rules.wire_bytes) (D.rules.pack wire) }
    ensures packed { length (D.rules.pack wire) ≡ D.rules.wire_bytes }
{
    let size = D::WIRE_BYTES as usize;
    let at = place * size;
    driver.pack(wire, &mut frame[at..at + size]);
}

// The wires from a place of a frame on, as many as there is room for.
pub fn unpack_each<D: Driver>(driver: &D, frame: &[u8], place: usize, into: &mut [D::Wire])
    requires within { (place + length into.old) * D.WIRE_BYTES ≤ length frame.now }
    ensures { into.new ≡ map (λ k. wire_in D.rules frame.now (place + k))
        (range_with_len 0 (length into.old)) }
{
    for i in 0..into.len() {
        into[i] = unpack_at(driver, frame, place + i);
    }
}

// Packs wires from a place of a frame on.
pub fn pack_each<D: Driver>(driver: &D, wires: &[D::Wire], frame: &mut [u8], place: usize)
    requires within { (place + length wires.now) * D.WIRE_BYTES ≤ length frame.old }
    ensures { frame.new ≡ with_piece frame.old (place * D.rules.wire_bytes)
        (flat_map D.rules.pack wires.now) }
{
    for i in 0..wires.len() {
        pack_at(driver, wires[i], frame, place + i);
    }
}
