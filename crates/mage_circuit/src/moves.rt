// Circuits without ANDs.
ghost use Rattle.std.specs.Prelude.{◌≡◌, ◌≤◌, ◌<◌, ◌+◌, ◌++◌, length, take, drop, map, replicate, slice_index_or, false};
ghost use Rattle.std.specs.List.{zip};
ghost use Rattle.mage_bits.specs.Bits.{bits};
ghost use Rattle.mage_driver.specs.declared.standing.Standing.TheVariants as standing;

use mage_driver::Driver;

// a ^ b for each pair of bits
pub fn xor_each<D: Driver>(driver: &D, a: &[D::Wire], b: &[D::Wire], out: &mut [D::Wire])
    requires running { (D.tells driver.now).standing ≡ standing.Running }
    requires same { length b.now ≡ length a.now }
    requires room { length out.old ≡ length a.now }
    ensures { out.new ≡ map (λ pair. D.rules.xor pair.0 pair.1) (zip a.now b.now) }
{
    for i in 0..a.len() {
        out[i] = driver.xor(a[i], b[i]);
    }
}

// ~a for each bit
pub fn not_each<D: Driver>(driver: &D, a: &[D::Wire], out: &mut [D::Wire])
    requires running { (D.tells driver.now).standing ≡ standing.Running }
    requires room { length out.old ≡ length a.now }
    ensures { out.new ≡ map (D.rules.not (D.tells driver.now).state) a.now }
{
    for i in 0..a.len() {
        out[i] = driver.not(a[i]);
    }
}

// The bits of a number, lowest first.
pub fn constant_each<D: Driver>(driver: &D, number: u64, out: &mut [D::Wire])
    requires running { (D.tells driver.now).standing ≡ standing.Running }
    ensures { out.new
        ≡ map (D.rules.constant (D.tells driver.now).state) (bits number (length out.old)) }
{
    let mut left = number;
    for i in 0..out.len() {
        out[i] = driver.constant(left % 2 == 1);
        left /= 2;
    }
}

// Zeros.
pub fn clear<D: Driver>(driver: &D, out: &mut [D::Wire])
    requires running { (D.tells driver.now).standing ≡ standing.Running }
    ensures { out.new
        ≡ replicate (length out.old) (D.rules.constant (D.tells driver.now).state false) }
{
    let zero = driver.constant(false);
    for i in 0..out.len() {
        out[i] = zero;
    }
}

// As many wires as there is room for, with zeros above them.
pub fn resize<D: Driver>(driver: &D, from: &[D::Wire], out: &mut [D::Wire])
    requires running { (D.tells driver.now).standing ≡ standing.Running }
    ensures { out.new ≡ take (length out.old) (from.now
        ++ replicate (length out.old) (D.rules.constant (D.tells driver.now).state false)) }
{
    let zero = driver.constant(false);
    for i in 0..out.len() {
        out[i] = wire_at(from, i, zero);
    }
}

// A wire, or another past the last.
fn wire_at<W: Copy>(from: &[W], place: usize, other: W) -> W
    ensures { result ≡ slice_index_or from.now place other }
{
    if place < from.len() {
        from[place]
    } else {
        other
    }
}

// Moved down by an amount, with zeros above.
pub fn move_down<D: Driver>(driver: &D, from: &[D::Wire], amount: usize, out: &mut [D::Wire])
    requires running { (D.tells driver.now).standing ≡ standing.Running }
    ensures { out.new ≡ take (length out.old) (drop amount from.now
        ++ replicate (length out.old) (D.rules.constant (D.tells driver.now).state false)) }
{
    if amount < from.len() {
        resize(driver, &from[amount..], out);
    } else {
        resize(driver, &from[from.len()..], out);
    }
}

// Moved up by an amount, with zeros below.
pub fn move_up<D: Driver>(driver: &D, from: &[D::Wire], amount: usize, out: &mut [D::Wire])
    requires running { (D.tells driver.now).standing ≡ standing.Running }
    requires room { length out.old ≡ length from.now }
    ensures { out.new ≡ take (length out.old)
        (replicate amount (D.rules.constant (D.tells driver.now).state false) ++ from.now) }
{
    let zero = driver.constant(false);
    for i in 0..out.len() {
        out[i] = wire_above(from, amount, i, zero);
    }
}

// A wire of those that have so many others below them.
fn wire_above<W: Copy>(from: &[W], amount: usize, place: usize, other: W) -> W
    requires { place < amount + length from.now }
    ensures { result ≡ slice_index_or (replicate amount other ++ from.now) place other }
{
    if place < amount {
        other
    } else {
        from[place - amount]
    }
}
